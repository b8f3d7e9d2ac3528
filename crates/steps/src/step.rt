// Steps that passed their questions.
ghost use Rattle.std.specs.Prelude.{◌≡◌, true};
ghost use Rattle.steps.specs.Steps.{in_reach};

use pairs::Pair;

mod check;
mod narrow;

// The number of the pair's second window is to be that of its first one plus the distance.
#[derive(Clone, Copy)]
pub struct Step {
    pair: Pair,
    distance: i32,
    ghost near: { in_reach distance ≡ true },
}
