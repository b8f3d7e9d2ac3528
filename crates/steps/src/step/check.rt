// The check that makes a step, and the windows that it reads.
ghost use Rattle.std.specs.Prelude.{◌≡◌, Some, None, MatchResult};
ghost use Rattle.pairs.specs.Pairs.{pair_reads};
ghost use Rattle.steps.specs.Steps.{step_asks};
ghost use Rattle.steps.specs.Meaning.{StepMeans};

use crate::step::Step;
use pairs::Pair;
use rulebook::BookRefusal;

// No two numbers of sets are further apart.
const FURTHEST: i32 = 63;

impl Step {
    // Asks whether windows p and q of n are two windows of the table, and k a distance that two numbers can have.
    pub fn check(p: usize, q: usize, k: i32, n: usize) -> Result<Step, BookRefusal>
        ensures equation { MatchResult result (λ s. (step_asks p q k n ≡ None) × (s.pair.p ≡ p) × (s.pair.q ≡ q) × (s.distance ≡ k)) (λ f. step_asks p q k n ≡ Some f) }
        ensures means { StepMeans result }
    {
        let pair = Pair::check(p, q, n)?;
        if k < -FURTHEST || k > FURTHEST {
            return Err(BookRefusal::Bound);
        }
        Ok(Step { pair, distance: k })
    }

    // Is j one of the two windows?
    pub fn reads(&self, j: usize) -> bool
        ensures { result ≡ pair_reads self.now.pair.p self.now.pair.q j }
    {
        self.pair.reads(j)
    }
}
