// A table that is settled once: a plan is made of its rows and a book, and settled first-come, and the rows as they were
// given are kept at the store's front.
#![tactic(auto)]

mod front;

pub use front::settle_front;
