// Rules as they are handed in, before their questions.
use sums::PostedSum;

// A rule of the day book.
#[derive(Clone, Copy)]
pub enum DayPost {
    SumEquals(PostedSum),
    SumAtMost(PostedSum),
    // the product of the first two windows is the third
    Product(usize, usize, usize),
    // two windows have different numbers
    Differ(usize, usize),
    // two windows have the same number
    Same(usize, usize),
}

// A rule of the room book.
#[derive(Clone, Copy)]
pub enum RoomPost {
    // two windows have different numbers
    Differ(usize, usize),
    // two windows have the same number
    Same(usize, usize),
    // the number of the second window is that of the first one plus the distance
    Step(usize, usize, i32),
}
