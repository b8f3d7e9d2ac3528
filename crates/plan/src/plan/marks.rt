// Marks: the copies that a plan keeps in its board's store, and the ways back to them.
ghost use Rattle.std.specs.Prelude.{◌≡◌, ◌+◌, ◌*◌, ◌≤◌, length, take, drop};
ghost use Rattle.plan.specs.Asking.{ask_marked, ask_kept, ask_back};
ghost use Rattle.plan.specs.Refusals.{mark_call, keep_call, back_call};
ghost use Rattle.plan.specs.Theorem.{Carries, if_ok};
ghost use Rattle.plan.specs.Views.{stored, store_after, Untouched};
ghost use Rattle.plan.specs.Plans.{state_of, LendsOn};

use crate::answer::{Closing, PlanRefusal};
use crate::board::Board;
use crate::plan::Plan;
use crate::settling::put_all;
use crate::status::Slot;
use policies::Policy;
use rulebook::RuleBook;
use windows::Window;

// An open mark of a plan. It can be neither made elsewhere, copied nor dropped: it must be kept or taken back.
pub struct Mark {
    number: u32,
}

// The rows and the store are each lent as `&mut` before they are used: so the check follows both loans of the board.
impl<'a, W: Window> Board<'a, W> {
    // Copies the table into the store, from `at` on.
    fn save(&mut self, at: usize)
        requires { at + length self.old.rows.now ≤ length self.old.store.now }
        ensures rows { self.new.rows.now ≡ self.old.rows.now }
        ensures store { self.new.store.now ≡ stored self.old.store.now at self.old.rows.now }
        ensures lent { LendsOn self.old self.new }
    {
        let n = self.rows.len();
        let rows = &mut *self.rows;
        let store = &mut *self.store;
        store[at..at + n].copy_from_slice(rows);
    }

    // Copies the table back from the store, from `at` on.
    fn load(&mut self, at: usize)
        requires { at + length self.old.rows.now ≤ length self.old.store.now }
        ensures rows { self.new.rows.now ≡ take (length self.old.rows.now) (drop at self.old.store.now) }
        ensures store { self.new.store.now ≡ self.old.store.now }
        ensures lent { LendsOn self.old self.new }
    {
        let n = self.rows.len();
        let rows = &mut *self.rows;
        let store = &mut *self.store;
        let copy = &mut store[at..at + n];
        rows.copy_from_slice(copy);
    }
}

// Each clause names the state as `see` or `s`, for the reason that stands at the other calls of a plan.
impl<B: RuleBook, P: Policy> Plan<B, P> {
    // Copies the table, the rule count and the impossible flag, and hands out a mark.
    pub fn mark(&mut self, board: &mut Board<B::Kind>) -> Result<Mark, PlanRefusal>
        ensures equation { let see = state_of B.RuleBook P.Policy B.Kind.Window in
            mark_call (length board.old.store.now) (see self.old board.old)
            ≡ record { answer = result; after = see self.new board.new } }
        ensures rows { board.new.rows.now ≡ board.old.rows.now }
        ensures store { let s = state_of B.RuleBook P.Policy B.Kind.Window self.old board.old in
            board.new.store.now ≡ store_after result board.old.store.now (length s.marks * s.windows) board.old.rows.now }
        ensures lent { LendsOn board.old board.new }
        ensures asked { let see = state_of B.RuleBook P.Policy B.Kind.Window in
            Carries B.RuleBook.sets P.Policy.choice (if_ok result (ask_marked self.old.status.handed)) (see self.old board.old) (see self.new board.new) }
    {
        board.check(self.status.windows)?;
        let place = self.status.marks.len();
        if place >= 16 {
            return Err(PlanRefusal::Marks);
        }
        let number = self.status.handed;
        if number >= 1_000_000_000 {
            return Err(PlanRefusal::Handed);
        }
        board.save(place * self.status.windows);
        self.status.marks.push(Slot {
            number,
            count: self.book.count(),
            impossible: self.status.impossible,
        });
        self.status.handed += 1;
        Ok(Mark { number })
    }

    // Ends the mark and all later ones.
    pub fn keep(&mut self, board: &Board<B::Kind>, mark: Mark) -> Result<Closing, PlanRefusal>
        ensures equation { let see = state_of B.RuleBook P.Policy B.Kind.Window in
            keep_call mark.number (length board.now.store.now) (see self.old board.now)
            ≡ record { answer = result; after = see self.new board.now } }
        ensures asked { let see = state_of B.RuleBook P.Policy B.Kind.Window in
            Carries B.RuleBook.sets P.Policy.choice (if_ok result (ask_kept mark.number)) (see self.old board.now) (see self.new board.now) }
    {
        let Mark { number } = mark;
        board.check(self.status.windows)?;
        let place = self.status.find(number).ok_or(PlanRefusal::Ended)?;
        self.status.marks.truncate(place);
        Ok(Closing::Done)
    }

    // Ends the mark and all later ones, and puts back what was copied, with every rule waiting.
    pub fn take_back(
        &mut self,
        board: &mut Board<B::Kind>,
        mark: Mark,
    ) -> Result<Closing, PlanRefusal>
        ensures equation { let see = state_of B.RuleBook P.Policy B.Kind.Window in
            back_call mark.number (length board.old.store.now) (see self.old board.old)
            ≡ record { answer = result; after = see self.new board.new } }
        ensures rows { Untouched result board.old.rows.now board.new.rows.now }
        ensures store { board.new.store.now ≡ board.old.store.now }
        ensures lent { LendsOn board.old board.new }
        ensures asked { let see = state_of B.RuleBook P.Policy B.Kind.Window in
            Carries B.RuleBook.sets P.Policy.choice (if_ok result (ask_back mark.number)) (see self.old board.old) (see self.new board.new) }
    {
        let Mark { number } = mark;
        board.check(self.status.windows)?;
        let k = self.status.find(number).ok_or(PlanRefusal::Ended)?;
        let slot = self.status.marks.as_slice()[k];
        board.load(k * self.status.windows);
        self.book.shorten(slot.count);
        put_all(&self.book, &mut self.policy);
        self.status.marks.truncate(k);
        self.status.impossible = slot.impossible;
        Ok(Closing::Done)
    }
}
