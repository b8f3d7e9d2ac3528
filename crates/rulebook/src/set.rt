// Sets of window numbers.
ghost use Rattle.std.specs.Prelude.{◌≡◌, ℕ, ◌<◌, false, not, ◌&&◌, ◌||◌, ◌==◌, nat_lt};
ghost use Rattle.rulebook.specs.Answers.{bit, member, any};

// A set of window numbers below 64: bit j of the mask says whether window j is in it.
#[derive(Clone, Copy)]
pub struct WindowSet {
    mask: u64,
}

// The mask with bit j set too.
fn with_bit(mask: u64, j: usize) -> u64
    requires { j < 64 }
    ensures { (k : ℕ) → bit result k ≡ (bit mask k || j == k) }
{
    mask | 1 << j
}

impl WindowSet {
    // The set with no window.
    pub fn empty() -> WindowSet
        ensures { (j : ℕ) → member result j ≡ false }
    {
        WindowSet { mask: 0 }
    }

    // Is there no window in it?
    pub fn is_empty(&self) -> bool
        ensures { result ≡ not (any (member self.now) 64) }
    {
        self.mask == 0
    }

    // Is window j in it?
    pub fn has(&self, j: usize) -> bool
        ensures { result ≡ member self.now j }
    {
        if j >= 64 {
            return false;
        }
        (self.mask >> j) % 2 == 1
    }

    // Adds window j; a number past 63 is no window's, and adds nothing.
    pub fn add(&mut self, j: usize)
        ensures { (k : ℕ) → member self.new k ≡ (member self.old k || (nat_lt j 64 && j == k)) }
    {
        if j < 64 {
            self.mask = with_bit(self.mask, j);
        }
    }
}
