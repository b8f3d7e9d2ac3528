// Sums that passed their questions.
ghost use Rattle.std.specs.Prelude.{◌≡◌, ◌<◌, true, length};
ghost use Rattle.bounded.specs.Lists.{items};
ghost use Rattle.sums.specs.Questions.{windows_below, apart, weights_fit, bound_fits};

mod check;
mod narrow;

use crate::posted::{MOST_TERMS, Relation, Term};
use bounded::BoundedList;

// The sum of the terms is to equal the bound, or to be at most the bound.
#[derive(Clone, Copy)]
pub struct Sum {
    bound: i32,
    terms: BoundedList<Term, MOST_TERMS>,
    relation: Relation,
    ghost some: { 0 < length (items terms) },
    ghost near: { windows_below 64 (items terms) ≡ true },
    ghost different: { apart (items terms) ≡ true },
    ghost weights: { weights_fit (items terms) ≡ true },
    ghost bounded: { bound_fits bound ≡ true },
}
