// Settling, over a book, a policy and lent rows. The book is apart from the policy, since it is only read while the policy changes.
ghost use Rattle.std.specs.Prelude.{◌≡◌, ℕ, ◌≤◌, Bool, map, length};
ghost use Rattle.rulebook.specs.Tables.{Every};
ghost use Rattle.rulebook.specs.Answers.{reads_at};
ghost use Rattle.policies.specs.Waiting.{puts};
ghost use Rattle.plan.specs.Calls.{all_waiting};
ghost use Rattle.plan.specs.Settling.{Runs};
ghost use Rattle.plan.specs.Rows.{wakes, Tests};

use crate::answer::Verdict;
use policies::Policy;
use rulebook::{Emptied, RuleBook, WindowSet};
use windows::Window;

// Does rule i read one of the changed windows?
fn touches<B: RuleBook>(book: &B, i: usize, changes: WindowSet, windows: usize) -> bool
    ensures { result ≡ wakes (B.RuleBook.rules book.now) changes windows i }
{
    (0..windows).any(|j| changes.has(j) && book.reads(i, j))
}

// Puts, rising, every rule below n that passes the test: over numbers of rules, which no list holds.
fn put_where<P: Policy, F: Fn(usize) -> bool>(policy: &mut P, n: usize, test: F)
    requires { F.IsAlwaysCallable test }
    ensures { (f : ℕ → Bool) → Tests (F.post test) n f → P.Policy.waiting policy.new ≡ puts f n (P.Policy.waiting policy.old) }
{
    for i in 0..n {
        if test(i) {
            policy.put(i);
        }
    }
}

// Puts, rising, every rule that reads a changed window.
fn wake<B: RuleBook, P: Policy>(book: &B, policy: &mut P, changes: WindowSet, windows: usize)
    ensures { P.Policy.waiting policy.new ≡ puts (wakes (B.RuleBook.rules book.now) changes windows) (length (B.RuleBook.rules book.now)) (P.Policy.waiting policy.old) }
{
    if !changes.is_empty() {
        put_where(policy, book.count(), |i| touches(book, i, changes, windows));
    }
}

// Lets every rule of the book wait, rising, and no other.
pub fn put_all<B: RuleBook, P: Policy>(book: &B, policy: &mut P)
    ensures { P.Policy.waiting policy.new ≡ all_waiting (B.RuleBook.rules book.now) }
{
    policy.clear();
    put_where(policy, book.count(), |_| true);
}

// Puts, rising, every rule that reads window j.
pub fn put_readers<B: RuleBook, P: Policy>(book: &B, policy: &mut P, j: usize)
    ensures { P.Policy.waiting policy.new ≡ puts (reads_at (B.RuleBook.rules book.now) j) (length (B.RuleBook.rules book.now)) (P.Policy.waiting policy.old) }
{
    put_where(policy, book.count(), |i| book.reads(i, j));
}

// Takes waiting rules and narrows by them, until none waits or a window is emptied.
pub fn run<B: RuleBook, P: Policy>(
    book: &B,
    policy: &mut P,
    rows: &mut [<B::Kind as Window>::Row],
) -> Verdict
    requires few { length rows.old ≤ 64 }
    requires windows { Every B.RuleBook.sets (map B.Kind.Window.stands rows.old) }
    ensures { Runs P.Policy.choice (B.RuleBook.rules book.now) (P.Policy.waiting policy.old) (map B.Kind.Window.stands rows.old) result (P.Policy.waiting policy.new) (map B.Kind.Window.stands rows.new) }
{
    let windows = rows.len();
    let mut steps: u64 = 0;
    while let Some(rule) = policy.take() {
        steps += 1;
        match book.narrow(rule, rows) {
            Ok(changes) => wake(book, policy, changes, windows),
            Err(Emptied { window }) => return Verdict::Impossible {
                steps,
                rule,
                window,
            },
        }
    }
    Verdict::Settled { steps }
}
