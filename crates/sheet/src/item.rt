// What each record says, taken from its payload.
ghost use Rattle.std.specs.Prelude.{◌≡◌, eqb, length, replicate, pos, if◌then◌else◌, Some, None, nat_le, slice_index};
ghost use Rattle.records.specs.Bytes.{int32};
ghost use Rattle.records.specs.Records.{plain};
ghost use Rattle.sheet.specs.Items.{terms, placed, posted_sum, item_of};

use books::DayPost;
use records::Record;
use sums::{MOST_TERMS, PostedSum, Term};
use windows::SpanRow;

#[derive(Clone, Copy)]
pub enum Item {
    // the byte that names the sheet's kind, a number until it is asked whether the record is in its place: this version knows one kind
    Kind(u8),
    // a window, before its check
    Window(SpanRow),
    // a rule, before its questions
    Rule(DayPost),
    Note,
}

// The terms of a sum: the first eight in their places, and how many there are. All are counted, so that too many are refused
// in the order of the questions.
fn terms_of(payload: &[u8]) -> ([Term; MOST_TERMS], usize)
    ensures items { result.0 ≡ placed (replicate 8 (record { window = 0; weight = pos 0 })) 0 (terms payload.now) }
    ensures count { result.1 ≡ length (terms payload.now) }
{
    let mut out = [Term {
        window: 0,
        weight: 0,
    }; MOST_TERMS];
    let (parts, _) = payload.as_chunks::<5>();
    for (n, [w, a, b, c, d]) in parts.iter().enumerate() {
        if n < MOST_TERMS {
            out[n] = Term {
                window: *w as usize,
                weight: i32::from_le_bytes([*a, *b, *c, *d]),
            };
        }
    }
    (out, parts.len())
}

// A sum: its bound, and then its terms.
fn sum_of(payload: &[u8]) -> Option<PostedSum>
    ensures { result ≡ (if nat_le 4 (length payload.now) then Some (posted_sum payload.now) else None) }
{
    let [a, b, c, d, rest @ ..] = payload else {
        return None;
    };
    let (terms, count) = terms_of(rest);
    Some(PostedSum {
        bound: i32::from_le_bytes([*a, *b, *c, *d]),
        terms,
        count,
    })
}

// A span: its two ends.
fn span_of(payload: &[u8]) -> Option<SpanRow>
    ensures { result ≡ (if eqb (length payload.now) 8 then Some (record { lo = int32 payload.now 0; hi = int32 payload.now 4 }) else None) }
{
    let [a, b, c, d, e, f, g, h] = payload else {
        return None;
    };
    Some(SpanRow {
        lo: i32::from_le_bytes([*a, *b, *c, *d]),
        hi: i32::from_le_bytes([*e, *f, *g, *h]),
    })
}

// Two window numbers.
fn pair_of(payload: &[u8]) -> Option<(usize, usize)>
    ensures { result ≡ (if eqb (length payload.now) 2 then Some (slice_index payload.now 0, slice_index payload.now 1) else None) }
{
    let [p, q] = payload else {
        return None;
    };
    Some((*p as usize, *q as usize))
}

// What a record says; nothing where its payload has the wrong length.
pub fn item_of(entry: Record) -> Option<Item>
    ensures { result ≡ item_of (plain entry.entry) }
{
    match entry {
        Record::Kind([k]) => Some(Item::Kind(*k)),
        Record::Kind(_) => None,
        Record::Span(payload) => Some(Item::Window(span_of(payload)?)),
        Record::SumEquals(payload) => Some(Item::Rule(DayPost::SumEquals(sum_of(payload)?))),
        Record::SumAtMost(payload) => Some(Item::Rule(DayPost::SumAtMost(sum_of(payload)?))),
        Record::Differ(payload) => {
            let (p, q) = pair_of(payload)?;
            Some(Item::Rule(DayPost::Differ(p, q)))
        }
        Record::Same(payload) => {
            let (p, q) = pair_of(payload)?;
            Some(Item::Rule(DayPost::Same(p, q)))
        }
        Record::Note(_) => Some(Item::Note),
    }
}
