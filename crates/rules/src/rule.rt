// One rule of a book.
ghost use Rattle.std.specs.Prelude.{◌≡◌, ℕ, ◌<◌, true, map, Some, None, Option, MatchResult};
ghost use Rattle.windows.specs.Kinds.{Of};
ghost use Rattle.rulebook.specs.Rules.{Rule, Lawful};
ghost use Rattle.rulebook.specs.Answers.{outcome, Tells, RowsKept};
ghost use Rattle.rulebook.specs.declared.answer.BookRefusal.{BookRefusal as Refusal};

use rulebook::{BookRefusal, Emptied, WindowSet};
use windows::Window;

// A rule that has passed its questions and keeps the four laws.
pub trait BookRule: Copy {
    // the kind of window that the rule is about
    type Kind: Window;

    // a rule as it is handed in, before its questions
    type Post: Copy;

    // what the rule is
    ghost rule: { Self → Rule };

    // what a posted rule means
    ghost meaning: { Self.Post → Rule };

    // what a posted rule is refused for on so many windows
    ghost asks: { Self.Post → ℕ → Option Refusal };

    // Asks the rule's questions on n windows.
    fn check(post: Self::Post, n: usize) -> Result<Self, BookRefusal>
        ensures { MatchResult result (λ x. (asks post n ≡ None) × (rule x ≡ meaning post)) (λ f. asks post n ≡ Some f) };

    // Does the rule read window j?
    fn reads(&self, j: usize) -> bool
        ensures { result ≡ (rule self.now).reads j };

    // Narrows the rows. A rule that reads beyond the rows, and rows of which one fails its check change nothing.
    fn narrow(&self, rows: &mut [<Self::Kind as Window>::Row]) -> Result<WindowSet, Emptied>
        ensures equation { Tells (map Self.Kind.Window.stands rows.old) (outcome (rule self.now) (map Self.Kind.Window.stands rows.old)) result (map Self.Kind.Window.stands rows.new) }
        ensures rows { RowsKept result rows.old rows.new };

    ghost lawful: { (r : Self) → Lawful (Of Self.Kind.Window.kind) (rule r) };

    // a rule reads only windows that a table can have, and an accepted one only windows of the table
    ghost near: { (r : Self) (j : ℕ) → (rule r).reads j ≡ true → j < 64 };

    ghost within: { (p : Self.Post) (n j : ℕ) → asks p n ≡ None → (meaning p).reads j ≡ true → j < n };
}
