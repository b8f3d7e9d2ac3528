// A rulebook over one kind of window: a list of rules that keep the four laws.
ghost use Rattle.std.specs.Prelude.{◌≡◌, ℕ, ◌<◌, ◌≤◌, true, List, map, length, get_or, take, ℤ, None, Option, slice_index_or};
ghost use Rattle.windows.specs.Kinds.{Of};
ghost use Rattle.rulebook.specs.Rules.{Rule, Lawful, missing};
ghost use Rattle.rulebook.specs.Answers.{outcome, Tells, RowsKept, posted, reach_of};
ghost use Rattle.rulebook.specs.declared.answer.BookRefusal.{BookRefusal as Refusal};

use crate::answer::{BookRefusal, Emptied};
use crate::set::WindowSet;
use windows::Window;

pub trait RuleBook {
    // the kind of window that the rules are about
    type Kind: Window;

    // a rule as it is handed in, before its questions
    type Post: Copy;

    // which sets are windows, to the rules
    ghost sets: { List ℤ → Type 0 };

    // the rules that the book holds, numbered from 0
    ghost rules: { Self → List Rule };

    // what a posted rule means
    ghost meaning: { Self.Post → Rule };

    // what the book refuses a rule for on so many windows
    ghost refuses: { Self → Self.Post → ℕ → Option Refusal };

    // How many rules the book holds.
    fn count(&self) -> usize
        ensures { result ≡ length (rules self.now) };

    // One more than the highest window that a rule reads, 0 if none reads any.
    fn reach(&self) -> usize
        ensures { result ≡ reach_of (rules self.now) 64 };

    // Does rule i read window j?
    fn reads(&self, i: usize, j: usize) -> bool
        ensures { result ≡ (get_or (rules self.now) i missing).reads j };

    // Narrows the rows by rule i and answers which windows changed, or the lowest one that would have been emptied. A missing
    // rule, one that reads beyond the rows, and rows of which one fails its check change nothing.
    fn narrow(
        &self,
        i: usize,
        rows: &mut [<Self::Kind as Window>::Row],
    ) -> Result<WindowSet, Emptied>
        ensures equation { Tells (map Self.Kind.Window.stands rows.old) (outcome (slice_index_or (rules self.now) i missing) (map Self.Kind.Window.stands rows.old)) result (map Self.Kind.Window.stands rows.new) }
        ensures rows { RowsKept result rows.old rows.new };

    // Adds a rule for n windows at the end and answers its number, or refuses it.
    fn post(&mut self, rule: Self::Post, n: usize) -> Result<usize, BookRefusal>
        ensures { posted (rules self.old) (meaning rule) (refuses self.old rule n) ≡ record { answer = result; after = rules self.new } };

    // Keeps the first k rules, or all if there are fewer.
    fn shorten(&mut self, k: usize)
        ensures { rules self.new ≡ take k (rules self.old) };

    // the sets are the windows of the kind
    ghost tied: { (s : List ℤ) → (sets s → Of Self.Kind.Window.kind s) × (Of Self.Kind.Window.kind s → sets s) };

    ghost lawful: { (b : Self) (i : ℕ) → i < length (rules b) → Lawful sets (slice_index_or (rules b) i missing) };

    // a book holds at most 64 rules, and they read only windows that a table can have
    ghost few: { (b : Self) → length (rules b) ≤ 64 };

    ghost near: { (b : Self) (i j : ℕ) → (get_or (rules b) i missing).reads j ≡ true → j < 64 };

    // an accepted rule reads only windows of the table
    ghost within: { (b : Self) (p : Self.Post) (n j : ℕ) → refuses b p n ≡ None → (meaning p).reads j ≡ true → j < n };
}
