// The records of a sheet: how its bytes are cut, and which record may stand where.
#![tactic(auto)]

mod record;
mod refusal;

pub use record::{Placed, Record, Stage, record_at};
pub use refusal::SheetRefusal;
