// Narrowing rows by a step.
ghost use Rattle.std.specs.Prelude.{◌≡◌, true, map, ℤ, pos, ◌+ℤ◌, ◌≤ℤ◌};
ghost use Rattle.windows.specs.Sets.{has};
ghost use Rattle.sets.specs.Masks.{mask_numbers, set_numbers};
ghost use Rattle.rulebook.specs.Answers.{outcome, Tells, RowsKept};
ghost use Rattle.rules.specs.Pointwise.{rule_of, written};
ghost use Rattle.rules.specs.Writing.{numbers_of};
ghost use Rattle.rules.specs.Made.{made};
ghost use Rattle.steps.specs.Steps.{in_reach, partnered, step_rule};

use crate::step::Step;
use rulebook::{Emptied, WindowSet};
use rules::NewWindows;
use sets::{Set, SetRow};
use windows::Window;

// The mask of the numbers v for which v + k is in the mask. The distance is a step's or its negation, so its reach is asked here
// and of `partnered`, and is no type's.
fn moved_back(mask: u64, k: i32) -> u64
    requires { in_reach k ≡ true }
    ensures { (v : ℤ) → pos 0 ≤ℤ v → v ≤ℤ pos 63 → has (mask_numbers result) v ≡ has (mask_numbers mask) (v +ℤ k) }
{
    if k >= 0 { mask >> k } else { mask << -k }
}

// The numbers of `own` that have a partner in `other`, k above them.
fn partnered(own: &Set, other: &Set, k: i32) -> Option<Set>
    requires { in_reach k ≡ true }
    ensures { numbers_of (λ w. mask_numbers w.mask) result ≡ partnered k (mask_numbers own.now.mask) (mask_numbers other.now.mask) }
{
    let mask = moved_back(other.row().mask, k);
    Set::from_row(SetRow {
        mask: own.row().mask & mask,
    })
}

impl Step {
    // What the two windows become, both made from the old rows; nothing where one is missing. Written into the rows it gives the
    // rule's outcome.
    fn new_windows(&self, rows: &[SetRow]) -> NewWindows<Set>
        ensures { written (map set_numbers rows.now) (made (λ w. mask_numbers w.mask) result) ≡ outcome (rule_of (step_rule self.now.distance self.now.pair.p self.now.pair.q)) (map set_numbers rows.now) }
    {
        let Some((first, second)) = self.pair.windows::<Set>(rows) else {
            return NewWindows::new();
        };
        self.pair.both(
            partnered(&first, &second, self.distance),
            partnered(&second, &first, -self.distance),
        )
    }

    // Narrows the rows by the step. A step that reads beyond the rows, and rows of which one fails its check, change nothing.
    pub fn narrow(&self, rows: &mut [SetRow]) -> Result<WindowSet, Emptied>
        ensures equation { Tells (map set_numbers rows.old) (outcome (rule_of (step_rule self.now.distance self.now.pair.p self.now.pair.q)) (map set_numbers rows.old)) result (map set_numbers rows.new) }
        ensures rows { RowsKept result rows.old rows.new }
    {
        self.new_windows(rows).write(rows)
    }
}
