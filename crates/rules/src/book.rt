// A book as a list of at most 64 rules: a rulebook, proved once for all types of rule.
ghost use Rattle.std.specs.Prelude.{◌≡◌, ⊤, [], length, slice_index_or};
ghost use Rattle.windows.specs.Kinds.{Of};
ghost use Rattle.rulebook.specs.Rules.{missing};
ghost use Rattle.rulebook.specs.Answers.{any, reads_at};
ghost use Rattle.bounded.specs.Lists.{items};
ghost use Rattle.rules.specs.Books.{slot_rule, book_rules, book_refuses};
ghost use Rattle.rules.specs.BookLaws.{book_lawful, book_few, book_near, accepted};

use crate::rule::BookRule;
use bounded::BoundedList;
use rulebook::{BookRefusal, Emptied, RuleBook, WindowSet};
use std::alloc::AllocError;
use windows::Window;

// A book holds at most so many rules.
const FULL: usize = 64;

// The rules of a book, in the order in which they were posted. Each slot of the list holds one; `None` fills the others.
pub struct Book<R> {
    rules: BoundedList<Option<R>, FULL>,
}

// A copy of a book is the book itself, and is made without an allocation. Neither impl can be derived over a field that is
// cloned only if it is `Copy`, as the list is.
impl<R: Copy> Copy for Book<R> {}

impl<R: Copy> Clone for Book<R> {
    ghost is_clone = { λ b c. c ≡ b };

    ghost is_infallible = { λ _. ⊤ };

    fn clone(&self) -> Result<Book<R>, AllocError> {
        Ok(*self)
    }
}

// Does the rule in a slot read window j?
fn slot_reads<R: BookRule>(slot: Option<R>, j: usize) -> bool
    ensures { result ≡ (slot_rule R.BookRule.rule slot).reads j }
{
    match slot {
        Some(rule) => rule.reads(j),
        None => false,
    }
}

impl<R: BookRule> Book<R> {
    // A book with no rule.
    pub fn new() -> Book<R>
        ensures { book_rules R.BookRule.rule result ≡ [] }
    {
        Book {
            rules: BoundedList::new(),
        }
    }

    // Rule number i, none past the end.
    fn rule_at(&self, i: usize) -> Option<R>
        ensures { slot_rule R.BookRule.rule result ≡ slice_index_or (book_rules R.BookRule.rule self.now) i missing }
    {
        *self.rules.as_slice().get(i)?
    }

    // Does some rule read window j?
    fn some_reads(&self, j: usize) -> bool
        ensures { result ≡ any (reads_at (book_rules R.BookRule.rule self.now) j) (length (book_rules R.BookRule.rule self.now)) }
    {
        self.rules
            .as_slice()
            .iter()
            .any(|slot| slot_reads::<R>(*slot, j))
    }
}

impl<R: BookRule> RuleBook for Book<R> {
    type Kind = R::Kind;

    type Post = R::Post;

    ghost sets = { Of R.Kind.Window.kind };

    ghost rules = { λ b. book_rules R.BookRule.rule b };

    ghost meaning = { R.BookRule.meaning };

    ghost refuses = { λ b p n. book_refuses (length (items b.rules)) (R.BookRule.asks p n) };

    ghost tied = { λ s. (λ h. h, λ h. h) };

    ghost lawful = { λ b i h. book_lawful R.BookRule.rule (items b.rules) (Of R.Kind.Window.kind) R.BookRule.lawful i };

    ghost few = { λ b. book_few R.BookRule.rule b.rules.slots b.rules.len b.rules.few };

    ghost near = { λ b. book_near R.BookRule.rule (items b.rules) R.BookRule.near };

    ghost within = { λ b p n j e h. R.BookRule.within p n j (accepted (length (items b.rules)) (R.BookRule.asks p n) e) h };

    fn count(&self) -> usize {
        self.rules.len()
    }

    fn reach(&self) -> usize {
        (0..64)
            .rposition(|j| self.some_reads(j))
            .map_or(0, |j| j + 1)
    }

    fn reads(&self, i: usize, j: usize) -> bool {
        slot_reads::<R>(self.rule_at(i), j)
    }

    fn narrow(
        &self,
        i: usize,
        rows: &mut [<R::Kind as Window>::Row],
    ) -> Result<WindowSet, Emptied> {
        match self.rule_at(i) {
            Some(rule) => rule.narrow(rows),
            None => Ok(WindowSet::empty()),
        }
    }

    fn post(&mut self, rule: R::Post, n: usize) -> Result<usize, BookRefusal> {
        if self.count() == FULL {
            return Err(BookRefusal::Full);
        }
        let checked = R::check(rule, n)?;
        self.rules.push(Some(checked)).ok_or(BookRefusal::Full)
    }

    fn shorten(&mut self, k: usize) {
        self.rules.truncate(k);
    }
}
