// A sum as it is handed in, before its questions.

// How many terms a sum may have.
pub const MOST_TERMS: usize = 8;

// A weight times the number of a window.
#[derive(Clone, Copy, Default)]
pub struct Term {
    pub window: usize,
    pub weight: i32,
}

// How a sum is to stand to its bound.
#[derive(Clone, Copy, PartialEq, Debug)]
pub enum Relation {
    Equals,
    AtMost,
}

// The terms and the bound of a sum. `count` says how many terms were given, of which the first eight are kept. It may be past
// eight, as no list's length is: a sum of too many terms is refused by its questions, and not where it is put together.
#[derive(Clone, Copy)]
pub struct PostedSum {
    pub bound: i32,
    pub terms: [Term; MOST_TERMS],
    pub count: usize,
}
