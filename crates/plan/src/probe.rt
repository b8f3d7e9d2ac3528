// Trying a cut out under a mark.
ghost use Rattle.std.specs.Prelude.{◌≡◌, ◌*◌, length};
ghost use Rattle.plan.specs.Refusals.{mark_call};
ghost use Rattle.plan.specs.Views.{Untouched, store_after};
ghost use Rattle.plan.specs.Probe.{cut_and_settle, try_call};
ghost use Rattle.plan.specs.Asking.{ask_same};
ghost use Rattle.plan.specs.Theorem.{Carries};
ghost use Rattle.plan.specs.Plans.{state_of, LendsOn};

use crate::answer::{PlanRefusal, Verdict};
use crate::board::Board;
use crate::plan::Plan;
use policies::Policy;
use rulebook::RuleBook;

// Each clause names the state as `see` or `s`, for the reason that stands at the calls of a plan.
// Cuts, and settles unless the cut is refused: a function of its own, so that `?` leaves no mark behind.
fn cut_and_settle<B: RuleBook, P: Policy>(
    plan: &mut Plan<B, P>,
    board: &mut Board<B::Kind>,
    j: usize,
    window: B::Kind,
) -> Result<Verdict, PlanRefusal>
    ensures equation { let see = state_of B.RuleBook P.Policy B.Kind.Window in
        cut_and_settle P.Policy.choice j (B.Kind.Window.numbers window) (length board.old.store.now) (see plan.old board.old)
        ≡ record { answer = result; after = see plan.new board.new } }
    ensures store { board.new.store.now ≡ board.old.store.now }
    ensures lent { LendsOn board.old board.new }
{
    plan.cut(board, j, window)?;
    plan.settle(board)
}

// What a settling answers after this cut. The plan is then back at its windows, with every rule waiting, and nothing new is asked of it.
pub fn try_cut<B: RuleBook, P: Policy>(
    plan: &mut Plan<B, P>,
    board: &mut Board<B::Kind>,
    j: usize,
    window: B::Kind,
) -> Result<Verdict, PlanRefusal>
    ensures equation { let see = state_of B.RuleBook P.Policy B.Kind.Window in
        try_call P.Policy.choice j (B.Kind.Window.numbers window) (length board.old.store.now) (see plan.old board.old)
        ≡ record { answer = result; after = see plan.new board.new } }
    ensures rows { let s = state_of B.RuleBook P.Policy B.Kind.Window plan.old board.old in
        Untouched (mark_call (length board.old.store.now) s).answer board.old.rows.now board.new.rows.now }
    ensures store { let s = state_of B.RuleBook P.Policy B.Kind.Window plan.old board.old in
        board.new.store.now ≡ store_after (mark_call (length board.old.store.now) s).answer board.old.store.now (length s.marks * s.windows) board.old.rows.now }
    ensures lent { LendsOn board.old board.new }
    ensures asked { let see = state_of B.RuleBook P.Policy B.Kind.Window in
        Carries B.RuleBook.sets P.Policy.choice ask_same (see plan.old board.old) (see plan.new board.new) }
{
    let mark = plan.mark(board)?;
    let answer = cut_and_settle(plan, board, j, window);
    plan.take_back(board, mark)?;
    answer
}
