// Bounded lists: at most so many items, which lie in the value itself.
#![tactic(auto)]

mod list;

pub use list::BoundedList;
