// The check that makes a sum, and the windows that it reads.
ghost use Rattle.std.specs.Prelude.{◌≡◌};
ghost use Rattle.sums.specs.Sums.{is_exact};
ghost use Rattle.sums.specs.Meaning.{sum_meaning, Checked};
ghost use Rattle.sums.specs.Laws.{SumMeans};

use crate::posted::{PostedSum, Relation};
use crate::questions::{ask, has_window};
use crate::sum::Sum;
use bounded::BoundedList;
use rulebook::BookRefusal;

impl Sum {
    // The sum on n windows, if it passes its questions.
    pub fn check(post: PostedSum, relation: Relation, n: usize) -> Result<Sum, BookRefusal>
        ensures equation { Checked post (is_exact relation) n result }
        ensures means { SumMeans post (is_exact relation) result }
    {
        ask(&post, n)?;
        Ok(Sum {
            bound: post.bound,
            terms: BoundedList::first_of(post.terms, post.count),
            relation,
        })
    }

    // Does the sum read window j?
    pub fn reads(&self, j: usize) -> bool
        ensures { result ≡ (sum_meaning self.now).reads j }
    {
        has_window(self.terms.as_slice(), j)
    }
}
