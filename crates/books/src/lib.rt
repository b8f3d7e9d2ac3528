// The rulebooks of the planner.
#![tactic(auto)]

mod day;
mod post;
mod room;

pub use day::{DayBook, DayRule};
pub use post::{DayPost, RoomPost};
pub use room::{RoomBook, RoomRule};
