// The span kind: all whole numbers from one to another.
ghost use Rattle.std.specs.Prelude.{◌≡◌, [], pos, negsuc, ◌+ℤ◌, ◌≤ℤ◌, if◌then◌else◌, MatchOption, FitsSigned};
ghost use Rattle.std.specs.Int.{w32, int_min, int_max};
ghost use Rattle.windows.specs.Sets.{eq_z, range};
ghost use Rattle.windows.specs.Kinds.{spans};
ghost use Rattle.windows.specs.Rows.{Stands, Checked, span_numbers};
ghost use Rattle.windows.specs.SpanLaws.{spans_proper, span_of, row_of, row_faithful};

use crate::window::Window;

// No window has a number below the lowest or above the highest.
const LOWEST: i32 = -1_000_000;

const HIGHEST: i32 = 1_000_000;

// A span as it stands in a table, before its check.
#[derive(Clone, Copy, PartialEq, Debug)]
pub struct SpanRow {
    pub lo: i32,
    pub hi: i32,
}

impl SpanRow {
    // Are the ends in order, and in range?
    fn stands(&self) -> bool
        ensures { Checked self.now result }
    {
        self.lo <= self.hi && self.lo >= LOWEST && self.hi <= HIGHEST
    }
}

// All numbers from lo to hi.
#[derive(Clone, Copy, PartialEq)]
pub struct Span {
    lo: i32,
    hi: i32,
    ghost stands: { Stands lo hi },
}

// The end of a span, moved where it is `v`.
fn moved(end: i32, v: i32, by: i32) -> i32
    requires { FitsSigned w32 (end +ℤ by) }
    ensures { result ≡ (if eq_z v end then end +ℤ by else end) }
{
    if v == end { end + by } else { end }
}

impl Span {
    // Its lowest and its highest number.
    pub fn ends(&self) -> (i32, i32)
        ensures { result ≡ (self.now.lo, self.now.hi) }
    {
        (self.lo, self.hi)
    }

    // The span of its numbers from `from` to `to`, or none where it has none there.
    pub fn clipped(&self, from: i64, to: i64) -> Option<Span>
        ensures { let s = range (int_max self.now.lo from) (int_min self.now.hi to) in MatchOption result (s ≡ []) (λ w. range w.lo w.hi ≡ s) }
    {
        let lo = i64::from(self.lo).max(from);
        let hi = i64::from(self.hi).min(to);
        if lo > hi {
            return None;
        }
        Some(Span {
            lo: lo as i32,
            hi: hi as i32,
        })
    }

    // The span from lo to hi, or none where hi is below lo.
    fn from_ends(lo: i32, hi: i32) -> Option<Span>
        requires { (negsuc 999999 ≤ℤ lo) × (hi ≤ℤ pos 1000000) }
        ensures { MatchOption result (range lo hi ≡ []) (λ w. range w.lo w.hi ≡ range lo hi) }
    {
        if lo <= hi {
            Some(Span { lo, hi })
        } else {
            None
        }
    }
}

impl Window for Span {
    type Row = SpanRow;

    ghost kind = { spans };

    ghost numbers = { λ w. range w.lo w.hi };

    ghost stands = { λ row. span_numbers row };

    ghost proper = { spans_proper };

    ghost kinds = { λ w. span_of w.lo w.hi w.stands.0 w.stands.1 w.stands.2 };

    ghost rows = { row_of };

    ghost faithful = { row_faithful };

    fn from_row(row: SpanRow) -> Option<Span> {
        if row.stands() {
            Some(Span {
                lo: row.lo,
                hi: row.hi,
            })
        } else {
            None
        }
    }

    fn row(&self) -> SpanRow {
        SpanRow {
            lo: self.lo,
            hi: self.hi,
        }
    }

    fn meet(&self, other: &Span) -> Option<Span> {
        Span::from_ends(self.lo.max(other.lo), self.hi.min(other.hi))
    }

    fn without(&self, v: i32) -> Option<Span> {
        Span::from_ends(moved(self.lo, v, 1), moved(self.hi, v, -1))
    }

    fn sole(&self) -> Option<i32> {
        if self.lo == self.hi {
            Some(self.lo)
        } else {
            None
        }
    }

    fn size(&self) -> u32 {
        (self.hi - self.lo + 1) as u32
    }

    fn alike(&self, other: &Span) -> bool {
        self == other
    }
}
