// The states of a sheet, as types of plain numbers.
ghost use Rattle.std.specs.Prelude.{◌≡◌};
ghost use Rattle.sheet.specs.Reading.{held, room};

mod reading;
mod settling;

use crate::lent::Lent;
use plan::PlanRefusal;
use records::Stage;

// A sheet that is being read: the next byte, what was read so far, and how many windows.
#[derive(Drop)]
pub struct Open {
    at: usize,
    stage: Stage,
    windows: usize,
}

// A sheet that was read to its end: its length, and how many windows it has.
#[derive(Drop)]
pub struct Read {
    at: usize,
    windows: usize,
}

// Asks whether there are places for 64 windows, and for 16 times as many in the store.
fn check_room(lent: &Lent) -> Result<(), PlanRefusal>
    ensures { result ≡ room (held lent.now) }
{
    if lent.rows.len() < 64 || lent.store.len() < 1024 {
        return Err(PlanRefusal::Store);
    }
    Ok(())
}
