// A board: a lent table of windows of any one kind, as rows, and beside it a lent store for marks.
ghost use Rattle.std.specs.Prelude.{◌≡◌, map, length, ◌==◌, nat_le};
ghost use Rattle.std.specs.Result.{result_err};
ghost use Rattle.plan.specs.Refusals.{is_table, board_refusal};

use crate::answer::PlanRefusal;
use rulebook::all_windows;
use windows::Window;

#[derive(Drop)]
pub struct Board<'a, W: Window> {
    pub rows: &'a mut [W::Row],
    pub store: &'a mut [W::Row],
}

// 1 to 64 windows?
fn is_table<W: Window>(rows: &[W::Row]) -> bool
    ensures { result ≡ is_table (map W.Window.stands rows.now) }
{
    1 <= rows.len() && rows.len() <= 64 && all_windows::<W>(rows)
}

// Refuses rows with a store of this length; `wanted` says whether there are as many as wanted.
fn check<W: Window>(rows: &[W::Row], stored: usize, wanted: bool) -> Result<(), PlanRefusal>
    ensures { result_err result ≡ board_refusal (map W.Window.stands rows.now) stored wanted }
{
    if !is_table::<W>(rows) {
        return Err(PlanRefusal::Windows);
    }
    if stored < 16 * rows.len() {
        return Err(PlanRefusal::Store);
    }
    if !wanted {
        return Err(PlanRefusal::Length);
    }
    Ok(())
}

impl<'a, W: Window> Board<'a, W> {
    // Refuses the board where a plan for so many windows does.
    pub fn check(&self, windows: usize) -> Result<(), PlanRefusal>
        ensures { let T = map W.Window.stands self.now.rows.now in result_err result ≡ board_refusal T (length self.now.store.now) (length T == windows) }
    {
        let wanted = self.rows.len() == windows;
        check::<W>(self.rows, self.store.len(), wanted)
    }

    // Refuses the board where the making of a plan does whose rules reach so far.
    pub fn check_reach(&self, reach: usize) -> Result<(), PlanRefusal>
        ensures { let T = map W.Window.stands self.now.rows.now in result_err result ≡ board_refusal T (length self.now.store.now) (nat_le reach (length T)) }
    {
        let wanted = reach <= self.rows.len();
        check::<W>(self.rows, self.store.len(), wanted)
    }

    // What the board is refused for by a plan for so many windows: an Option, as callers took it before `check`.
    pub fn refusal(&self, windows: usize) -> Option<PlanRefusal>
        ensures { let T = map W.Window.stands self.now.rows.now in result ≡ board_refusal T (length self.now.store.now) (length T == windows) }
    {
        self.check(windows).err()
    }

    // What the board is refused for by the making of a plan whose rules reach so far.
    pub fn refusal_for(&self, reach: usize) -> Option<PlanRefusal>
        ensures { let T = map W.Window.stands self.now.rows.now in result ≡ board_refusal T (length self.now.store.now) (nat_le reach (length T)) }
    {
        self.check_reach(reach).err()
    }
}
