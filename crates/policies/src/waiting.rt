// The waiting rules: numbers below 64, none twice.
ghost use Rattle.std.specs.Prelude.{◌≡◌, true, [], position, ◌==◌};
ghost use Rattle.bounded.specs.Lists.{items};
ghost use Rattle.policies.specs.Waiting.{holds, distinct, put, remove};

use bounded::BoundedList;

// The rules that wait, in the order in which they came.
#[derive(Clone, Copy)]
pub struct WaitingList {
    rules: BoundedList<usize, 64>,
    ghost apart: { distinct (items rules) ≡ true },
}

impl WaitingList {
    // No rule waits.
    pub fn new() -> Self
        ensures { items result.rules ≡ [] }
    {
        WaitingList {
            rules: BoundedList::new(),
        }
    }

    // The rules that wait.
    pub fn as_slice(&self) -> &[usize]
        ensures { result.now ≡ items self.now.rules }
    {
        self.rules.as_slice()
    }

    // Does rule i wait?
    fn has(&self, i: usize) -> bool
        ensures { result ≡ holds i (items self.now.rules) }
    {
        self.as_slice().contains(&i)
    }

    // An absent number below 64 goes to the end.
    pub fn put(&mut self, i: usize)
        ensures { items self.new.rules ≡ put i (items self.old.rules) }
    {
        if i < 64 && !self.has(i) {
            self.rules.push(i);
        }
    }

    // Lets no rule wait.
    pub fn clear(&mut self)
        ensures { items self.new.rules ≡ [] }
    {
        self.rules.truncate(0);
    }

    // The place of rule i, or none if it does not wait.
    fn place_of(&self, i: usize) -> Option<usize>
        ensures { result ≡ position (λ x. x == i) (items self.now.rules) }
    {
        self.as_slice().iter().position(|x| *x == i)
    }

    // Takes rule i out, if it waits.
    pub fn remove(&mut self, i: usize)
        ensures { items self.new.rules ≡ remove i (items self.old.rules) }
    {
        if let Some(k) = self.place_of(i) {
            self.rules.remove(k);
        }
    }
}
