// What every policy offers.
ghost use Rattle.std.specs.Prelude.{◌≡◌, ℕ, true, List, []};
ghost use Rattle.policies.specs.Waiting.{distinct, Chooses, put, taking};

// A policy keeps the numbers of the rules that wait, and says which of them is taken next.
pub trait Policy {
    // the rules that wait, in the order in which they came
    ghost waiting: { Self → List ℕ };

    // which of them is taken next
    ghost choice: { List ℕ → ℕ };

    // Lets rule i wait behind all others; one that waits already stays where it is.
    fn put(&mut self, i: usize)
        ensures { waiting self.new ≡ put i (waiting self.old) };

    // Takes the next rule, or none if none waits.
    fn take(&mut self) -> Option<usize>
        ensures { taking choice (waiting self.old) ≡ record { answer = result; after = waiting self.new } };

    // Lets no rule wait.
    fn clear(&mut self)
        ensures { waiting self.new ≡ [] };

    // numbers below 64, none twice
    ghost all_distinct: { (p : Self) → distinct (waiting p) ≡ true };

    // the choice is one of them
    ghost chooses: { Chooses choice };
}
