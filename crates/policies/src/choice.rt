// Choices: the one of the waiting rules that is taken next.
ghost use Rattle.std.specs.Prelude.{◌≡◌, ℕ, List};
ghost use Rattle.policies.specs.Waiting.{Chooses, first, lowest, taking};
ghost use Rattle.policies.specs.DistinctLaws.{first_chooses, lowest_chooses};

// A choice names one of the rules that wait.
pub trait Choice {
    // the rule that it names
    ghost choice: { List ℕ → ℕ };

    // The rule that is taken next of these, or none if there is none.
    fn next_of(rules: &[usize]) -> Option<usize>
        ensures { result ≡ (taking choice rules.now).answer };

    // it is one of them
    ghost chooses: { Chooses choice };
}

// The rule that came first.
#[derive(Clone, Copy)]
pub struct First;

impl Choice for First {
    ghost choice = { first };

    ghost chooses = { first_chooses };

    fn next_of(rules: &[usize]) -> Option<usize> {
        rules.first().copied()
    }
}

// The rule with the lowest number.
#[derive(Clone, Copy)]
pub struct Lowest;

impl Choice for Lowest {
    ghost choice = { lowest };

    ghost chooses = { lowest_chooses };

    fn next_of(rules: &[usize]) -> Option<usize> {
        rules.iter().copied().min()
    }
}
