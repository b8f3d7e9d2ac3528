// Rules that are given window by window, and books as lists of such rules.
#![tactic(auto)]

mod book;
mod new_windows;
mod rule;

pub use book::Book;
pub use new_windows::{NewWindow, NewWindows};
pub use rule::BookRule;
pub use rulebook::all_windows;
