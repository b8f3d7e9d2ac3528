// The listing: the text that a settled sheet is printed as.
#![tactic(auto)]

mod shown;
mod text;

pub use shown::{Fields, Shown};
pub use text::lines::print_listing;
