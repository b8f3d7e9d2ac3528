// The policies that keep one waiting list and take of it by a choice.
ghost use Rattle.std.specs.Prelude.{◌≡◌, []};

use crate::choice::{Choice, First, Lowest};
use crate::policy::Policy;
use crate::waiting::WaitingList;
use std::marker::PhantomData;

// A waiting list of which the choice C takes.
#[derive(Clone, Copy)]
pub struct ByChoice<C> {
    list: WaitingList,
    choice: PhantomData<C>,
}

// Takes the rules in the order in which they came.
pub type FirstCome = ByChoice<First>;

// Takes the lowest number that waits.
pub type LowestFirst = ByChoice<Lowest>;

impl<C: Choice> ByChoice<C> {
    ghost use Rattle.policies.specs.Policies.{waiting_of};

    // No rule waits.
    pub fn new() -> ByChoice<C>
        ensures { waiting_of result ≡ [] }
    {
        ByChoice {
            list: WaitingList::new(),
            choice: PhantomData,
        }
    }
}

impl<C: Choice> Policy for ByChoice<C> {
    ghost use Rattle.policies.specs.Policies.{waiting_of, waiting_distinct};

    ghost waiting = { waiting_of };

    ghost choice = { C.choice };

    ghost all_distinct = { waiting_distinct };

    ghost chooses = { C.chooses };

    fn put(&mut self, i: usize) {
        self.list.put(i);
    }

    fn take(&mut self) -> Option<usize> {
        let next = C::next_of(self.list.as_slice())?;
        self.list.remove(next);
        Some(next)
    }

    fn clear(&mut self) {
        self.list.clear();
    }
}
