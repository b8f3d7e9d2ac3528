// The day book, and its rules, each one checked.
ghost use Rattle.books.specs.Day.{day_rule, day_meaning, day_asks};
ghost use Rattle.books.specs.DayLaws.{day_lawful, day_near, day_within};

use crate::post::DayPost;
use pairs::Pair;
use products::Product;
use rulebook::{BookRefusal, Emptied, WindowSet};
use rules::{Book, BookRule};
use sums::{Relation, Sum};
use windows::{Span, SpanRow};

// A rule over spans that has passed its questions. What it shares with the rules over sets is written once, in `Book` and in the
// rules themselves; the two books know different rules.
#[derive(Clone, Copy)]
pub enum DayRule {
    Sum(Sum),
    Product(Product),
    Differ(Pair),
    Same(Pair),
}

// The rulebook over spans: sums, products, differ and same.
pub type DayBook = Book<DayRule>;

impl BookRule for DayRule {
    type Kind = Span;

    type Post = DayPost;

    ghost rule = { day_rule };

    ghost meaning = { day_meaning };

    ghost asks = { day_asks };

    ghost lawful = { day_lawful };

    ghost near = { day_near };

    ghost within = { day_within };

    fn check(post: DayPost, n: usize) -> Result<DayRule, BookRefusal> {
        match post {
            DayPost::SumEquals(sum) => Ok(DayRule::Sum(Sum::check(sum, Relation::Equals, n)?)),
            DayPost::SumAtMost(sum) => Ok(DayRule::Sum(Sum::check(sum, Relation::AtMost, n)?)),
            DayPost::Product(p, q, r) => Ok(DayRule::Product(Product::check(p, q, r, n)?)),
            DayPost::Differ(p, q) => Ok(DayRule::Differ(Pair::check(p, q, n)?)),
            DayPost::Same(p, q) => Ok(DayRule::Same(Pair::check(p, q, n)?)),
        }
    }

    fn reads(&self, j: usize) -> bool {
        match *self {
            DayRule::Sum(sum) => sum.reads(j),
            DayRule::Product(product) => product.reads(j),
            DayRule::Differ(pair) => pair.reads(j),
            DayRule::Same(pair) => pair.reads(j),
        }
    }

    fn narrow(&self, rows: &mut [SpanRow]) -> Result<WindowSet, Emptied> {
        match *self {
            DayRule::Sum(sum) => sum.narrow(rows),
            DayRule::Product(product) => product.narrow(rows),
            DayRule::Differ(pair) => pair.differ::<Span>(rows).write(rows),
            DayRule::Same(pair) => pair.same::<Span>(rows).write(rows),
        }
    }
}
