// A plan: a rulebook and a policy by value; the board is handed to each call.
mod marks;

ghost use Rattle.std.specs.Prelude.{◌≡◌, length};
ghost use Rattle.plan.specs.Asking.{ask_made, ask_same, ask_posted, ask_cut};
ghost use Rattle.plan.specs.Refusals.{make_call, settle_call, post_call, cut_call, show_call, told};
ghost use Rattle.plan.specs.Theorem.{Carries, if_ok, Begins, SaysAll, WithinSteps, Agrees, ShowsAll};
ghost use Rattle.plan.specs.Views.{Untouched};
ghost use Rattle.plan.specs.Plans.{table, state_of, IfRefused, LendsOn};

use crate::answer::{Cutting, PlanRefusal, Verdict};
use crate::board::Board;
use crate::settling::{put_all, put_readers, run};
use crate::status::Status;
pub use marks::Mark;
use policies::Policy;
use rulebook::{RuleBook, window_at};
use windows::Window;

#[derive(Drop)]
pub struct Plan<B: RuleBook, P: Policy> {
    book: B,
    policy: P,
    status: Status,
}

// Each clause of the calls names the state of a plan and its board anew, as `see`: no name can be bound over several clauses, and
// no `Model` can give it, since the board is lent to each call.
impl<B: RuleBook, P: Policy> Plan<B, P> {
    // Makes a plan whose rules all wait. A refused making answers a plan too, so the refusal stands beside it: that plan is for 0
    // windows, and its book and policy are as they came.
    pub fn make(book: B, mut policy: P, board: &Board<B::Kind>) -> (Plan<B, P>, Option<PlanRefusal>)
        ensures equation { let see = state_of B.RuleBook P.Policy B.Kind.Window in
            make_call (B.RuleBook.rules book) (P.Policy.waiting policy) (table B.Kind.Window.stands board.now) (length board.now.store.now)
            ≡ record { refusal = result.1; after = see result.0 board.now } }
        ensures book { result.0.book ≡ book }
        ensures policy { IfRefused result.1 (result.0.policy ≡ policy) }
        ensures asked { let see = state_of B.RuleBook P.Policy B.Kind.Window in
            Begins B.RuleBook.sets P.Policy.choice (ask_made (B.RuleBook.rules book) (table B.Kind.Window.stands board.now)) result.1 (see result.0 board.now) }
    {
        if let Err(refused) = board.check_reach(book.reach()) {
            let status = Status::new(0);
            return (
                Plan {
                    book,
                    policy,
                    status,
                },
                Some(refused),
            );
        }
        put_all(&book, &mut policy);
        let status = Status::new(board.rows.len());
        (
            Plan {
                book,
                policy,
                status,
            },
            None,
        )
    }

    // Adds a rule, which waits, and answers its number.
    pub fn post(&mut self, board: &Board<B::Kind>, rule: B::Post) -> Result<usize, PlanRefusal>
        ensures equation { let see = state_of B.RuleBook P.Policy B.Kind.Window in
            post_call (B.RuleBook.meaning rule) (B.RuleBook.refuses self.old.book rule self.old.status.windows) (length board.now.store.now) (see self.old board.now)
            ≡ record { answer = result; after = see self.new board.now } }
        ensures asked { let see = state_of B.RuleBook P.Policy B.Kind.Window in
            Carries B.RuleBook.sets P.Policy.choice (if_ok result (ask_posted (B.RuleBook.meaning rule))) (see self.old board.now) (see self.new board.now) }
    {
        board.check(self.status.windows)?;
        let number = self.book.post(rule, self.status.windows)?;
        self.policy.put(number);
        Ok(number)
    }

    // Meets window j with another.
    pub fn cut(
        &mut self,
        board: &mut Board<B::Kind>,
        j: usize,
        window: B::Kind,
    ) -> Result<Cutting, PlanRefusal>
        ensures equation { let see = state_of B.RuleBook P.Policy B.Kind.Window in
            cut_call j (B.Kind.Window.numbers window) (length board.old.store.now) (see self.old board.old)
            ≡ record { answer = result; after = see self.new board.new } }
        ensures rows { Untouched result board.old.rows.now board.new.rows.now }
        ensures store { board.new.store.now ≡ board.old.store.now }
        ensures lent { LendsOn board.old board.new }
        ensures asked { let see = state_of B.RuleBook P.Policy B.Kind.Window in
            Carries B.RuleBook.sets P.Policy.choice (if_ok result (ask_cut j (B.Kind.Window.numbers window))) (see self.old board.old) (see self.new board.new) }
    {
        board.check(self.status.windows)?;
        let rows = &mut *board.rows;
        let old = window_at::<B::Kind>(rows, j).ok_or(PlanRefusal::Window)?;
        let Some(new) = old.meet(&window) else {
            self.status.impossible = true;
            return Ok(Cutting::Impossible);
        };
        if old.alike(&new) {
            return Ok(Cutting::Unchanged);
        }
        rows[j] = new.row();
        put_readers(&self.book, &mut self.policy, j);
        Ok(Cutting::Changed)
    }

    // Narrows by the waiting rules until none waits.
    pub fn settle(&mut self, board: &mut Board<B::Kind>) -> Result<Verdict, PlanRefusal>
        ensures equation { let see = state_of B.RuleBook P.Policy B.Kind.Window in
            settle_call P.Policy.choice (length board.old.store.now) (see self.old board.old)
            ≡ record { answer = result; after = see self.new board.new } }
        ensures rows { Untouched result board.old.rows.now board.new.rows.now }
        ensures store { board.new.store.now ≡ board.old.store.now }
        ensures lent { LendsOn board.old board.new }
        ensures asked { let see = state_of B.RuleBook P.Policy B.Kind.Window in
            Carries B.RuleBook.sets P.Policy.choice ask_same (see self.old board.old) (see self.new board.new) }
        ensures widest { let see = state_of B.RuleBook P.Policy B.Kind.Window in
            SaysAll B.RuleBook.sets P.Policy.choice (see self.old board.old) result (see self.new board.new) }
        ensures bound { let see = state_of B.RuleBook P.Policy B.Kind.Window in
            WithinSteps (see self.old board.old) result (see self.new board.new) }
        ensures agrees { let see = state_of B.RuleBook P.Policy B.Kind.Window in
            Agrees B.RuleBook.sets P.Policy.choice (see self.old board.old) result (see self.new board.new) }
    {
        board.check(self.status.windows)?;
        if self.status.impossible {
            // the stated answer of an impossible plan, which no rule and no window has caused
            return Ok(Verdict::Impossible {
                steps: 0,
                rule: 64,
                window: 64,
            });
        }
        let verdict = run(&self.book, &mut self.policy, board.rows);
        self.status.impossible = verdict.is_impossible();
        Ok(verdict)
    }

    // Gives one window.
    pub fn show(&self, board: &Board<B::Kind>, j: usize) -> Result<B::Kind, PlanRefusal>
        ensures equation { let see = state_of B.RuleBook P.Policy B.Kind.Window in
            show_call j (length board.now.store.now) (see self.now board.now) ≡ told B.Kind.Window.numbers result }
        ensures asked { let see = state_of B.RuleBook P.Policy B.Kind.Window in
            ShowsAll B.RuleBook.sets P.Policy.choice (see self.now board.now) }
    {
        board.check(self.status.windows)?;
        let window = window_at::<B::Kind>(board.rows, j).ok_or(PlanRefusal::Window)?;
        if self.status.impossible {
            return Err(PlanRefusal::Impossible);
        }
        Ok(window)
    }
}
