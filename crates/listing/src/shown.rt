// How the rows of a kind are shown.
ghost use Rattle.std.specs.Prelude.{◌≡◌};
ghost use Rattle.listing.specs.Lines.{Look, span_look};

use windows::SpanRow;

// The fields of a line between the window's number and its word. An enum with one case, so that a line is made
// from what a kind shows and not from its row: two bare numbers would say no more plainly what they are.
#[derive(Clone, Copy)]
pub enum Fields {
    // the two ends of a span
    Ends(i32, i32),
}

pub trait Shown: Copy {
    ghost look: { Look Self };

    // What is shown of the row.
    fn fields(&self) -> Fields
        ensures { result ≡ look.fields self.now };

    // Is it the same row?
    fn is_same(&self, other: &Self) -> bool
        ensures { result ≡ look.same self.now other.now };

    // Is one number left?
    fn is_one(&self) -> bool
        ensures { result ≡ look.one self.now };
}

impl Shown for SpanRow {
    ghost look = { span_look };

    fn fields(&self) -> Fields {
        Fields::Ends(self.lo, self.hi)
    }

    fn is_same(&self, other: &SpanRow) -> bool {
        self == other
    }

    fn is_one(&self) -> bool {
        self.lo == self.hi
    }
}
