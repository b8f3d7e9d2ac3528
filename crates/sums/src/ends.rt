// Whole numbers between two ends.
ghost use Rattle.std.specs.Prelude.{◌≡◌};

use windows::Span;

// All whole numbers from one to another, none where `to` is below `from`. How far the ends may lie from 0 differs from step to
// step, so it stands in contracts and not in the type.
#[derive(Clone, Copy)]
pub struct Ends {
    pub from: i64,
    pub to: i64,
}

// The numbers of a span.
impl From<Span> for Ends {
    ghost from_gives = { λ span ends. (ends.from ≡ span.lo) × (ends.to ≡ span.hi) };

    fn from(span: Span) -> Ends {
        let (lo, hi) = span.ends();
        Ends {
            from: i64::from(lo),
            to: i64::from(hi),
        }
    }
}
