// What the calls of a rulebook answer.
ghost use Rattle.std.specs.Prelude.{◌≡◌};
ghost use Rattle.rulebook.specs.Answers.{book_number};

// A narrowing would have emptied a window, and changed nothing; this is the lowest such window.
#[derive(Clone, Copy, PartialEq, Debug)]
pub struct Emptied {
    pub window: usize,
}

// Why a book refuses a rule, or a row is no window, each with the number that it is told by.
#[derive(Clone, Copy, PartialEq, Debug)]
pub enum BookRefusal {
    // the book holds 64 rules
    Full = 4,
    // a sum has no term, or too many
    Terms = 5,
    // a window number is not in the table
    Window = 6,
    // a window number stands twice
    Repeated = 7,
    // a weight is 0, or beyond 10,000
    Weight = 8,
    // a bound or a distance is out of range
    Bound = 9,
    // a row is no window
    Row = 10,
}

impl BookRefusal {
    // The number that the refusal is told by.
    pub fn number(&self) -> u8
        ensures { result ≡ book_number self.now }
    {
        *self as u8
    }
}
