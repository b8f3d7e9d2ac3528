// Two windows, and the rules on them.
ghost use Rattle.std.specs.Prelude.{◌≡◌, [], ◌∷◌, map, IfOk, Some, None, ◌⊎◌, MatchOption, MatchResult};
ghost use Rattle.rulebook.specs.Tables.{window};
ghost use Rattle.rulebook.specs.Answers.{outcome};
ghost use Rattle.rules.specs.Pointwise.{rule_of, written};
ghost use Rattle.rules.specs.Writing.{numbers_of};
ghost use Rattle.rules.specs.Made.{made};
ghost use Rattle.pairs.specs.Pairs.{Apart, pair_reads, pair_asks, lose_sole, differ_rule, differ_entries, same_rule, same_entries};
ghost use Rattle.pairs.specs.Laws.{PairMeans};

use rulebook::{BookRefusal, window_at};
use rules::NewWindows;
use windows::Window;

// The numbers of two windows that a table can have.
#[derive(Clone, Copy)]
pub struct Pair {
    p: usize,
    q: usize,
    ghost apart: { Apart p q },
}

// The window without the sole number of the other.
fn lose_sole<W: Window>(own: &W, other: &W) -> Option<W>
    ensures { numbers_of W.Window.numbers result ≡ lose_sole W.Window.kind (W.Window.numbers own.now) (W.Window.numbers other.now) }
{
    match other.sole() {
        Some(v) => own.without(v),
        None => Some(*own),
    }
}

impl Pair {
    // Asks whether windows p and q of n are two windows of the table.
    pub fn check(p: usize, q: usize, n: usize) -> Result<Pair, BookRefusal>
        ensures equation { MatchResult result (λ x. (pair_asks p q n ≡ None) × (x.p ≡ p) × (x.q ≡ q)) (λ f. pair_asks p q n ≡ Some f) }
        ensures means { IfOk result (λ x. PairMeans x.p x.q) }
    {
        let end = n.min(64);
        if p >= end || q >= end {
            return Err(BookRefusal::Window);
        }
        if p == q {
            return Err(BookRefusal::Repeated);
        }
        Ok(Pair { p, q })
    }

    // Is j one of the two windows?
    pub fn reads(&self, j: usize) -> bool
        ensures { result ≡ pair_reads self.now.p self.now.q j }
    {
        self.p == j || self.q == j
    }

    // The first window; none past the end of the rows, and where the row fails its check.
    pub fn first<W: Window>(&self, rows: &[W::Row]) -> Option<W>
        ensures { MatchOption result (window (map W.Window.stands rows.now) self.now.p ≡ []) (λ w. W.Window.numbers w ≡ window (map W.Window.stands rows.now) self.now.p) }
    {
        window_at::<W>(rows, self.p)
    }

    // The second window; none past the end of the rows, and where the row fails its check.
    pub fn second<W: Window>(&self, rows: &[W::Row]) -> Option<W>
        ensures { MatchOption result (window (map W.Window.stands rows.now) self.now.q ≡ []) (λ w. W.Window.numbers w ≡ window (map W.Window.stands rows.now) self.now.q) }
    {
        window_at::<W>(rows, self.q)
    }

    // The two windows; none where one is missing.
    pub fn windows<W: Window>(&self, rows: &[W::Row]) -> Option<(W, W)>
        ensures { let T = map W.Window.stands rows.now in MatchOption result ((window T self.now.p ≡ []) ⊎ (window T self.now.q ≡ [])) (λ w. (W.Window.numbers w.0 ≡ window T self.now.p) × (W.Window.numbers w.1 ≡ window T self.now.q)) }
    {
        Some((self.first::<W>(rows)?, self.second::<W>(rows)?))
    }

    // New windows for the two.
    pub fn both<W: Window>(&self, first: Option<W>, second: Option<W>) -> NewWindows<W>
        ensures { made W.Window.numbers result ≡ record { at = self.now.p; new = numbers_of W.Window.numbers first } ∷ (record { at = self.now.q; new = numbers_of W.Window.numbers second } ∷ []) }
    {
        let mut new = NewWindows::new();
        new.push(self.p, first);
        new.push(self.q, second);
        new
    }

    // Differ: the new windows that each lost the sole number of the other. Written into the rows they give the rule's outcome. The
    // first three lines are those of `same` and of a step: one function for them would take a closure of two windows, promise what
    // any closure makes, and leave its callers as long.
    pub fn differ<W: Window>(&self, rows: &[W::Row]) -> NewWindows<W>
        ensures equation { made W.Window.numbers result ≡ differ_entries W.Window.kind self.now.p self.now.q (map W.Window.stands rows.now) }
        ensures outcome { written (map W.Window.stands rows.now) (made W.Window.numbers result) ≡ outcome (rule_of (differ_rule W.Window.kind self.now.p self.now.q)) (map W.Window.stands rows.now) }
    {
        let Some((first, second)) = self.windows::<W>(rows) else {
            return NewWindows::new();
        };
        self.both(lose_sole(&first, &second), lose_sole(&second, &first))
    }

    // Same: what both windows share, for both. Written into the rows it gives the rule's outcome.
    pub fn same<W: Window>(&self, rows: &[W::Row]) -> NewWindows<W>
        ensures equation { made W.Window.numbers result ≡ same_entries self.now.p self.now.q (map W.Window.stands rows.now) }
        ensures outcome { written (map W.Window.stands rows.now) (made W.Window.numbers result) ≡ outcome (rule_of (same_rule self.now.p self.now.q)) (map W.Window.stands rows.now) }
    {
        let Some((first, second)) = self.windows::<W>(rows) else {
            return NewWindows::new();
        };
        let shared = first.meet(&second);
        self.both(shared, shared)
    }
}
