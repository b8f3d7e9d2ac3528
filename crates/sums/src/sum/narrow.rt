// Narrowing rows by a sum.
ghost use Rattle.std.specs.Prelude.{◌≡◌, map, ℤ, pos, negsuc, ◌-ℤ◌, ◌*ℤ◌, neg_ℤ, ◌≤ℤ◌, if◌then◌else◌, Some, filter};
ghost use Rattle.std.specs.Int.{int_div_euclid};
ghost use Rattle.windows.specs.Sets.{range, between, least_by, greatest_by};
ghost use Rattle.windows.specs.Rows.{span_numbers};
ghost use Rattle.rulebook.specs.Answers.{outcome, Tells, RowsKept};
ghost use Rattle.rules.specs.Made.{made};
ghost use Rattle.sums.specs.Sums.{is_exact, weighed, sum_new};
ghost use Rattle.sums.specs.Meaning.{terms_of, sum_meaning};
ghost use Rattle.sums.specs.Sizes.{Weighs, Small};
ghost use Rattle.sums.specs.Laws.{SumKeeps, SumReached};
ghost use Rattle.sums.specs.Steps.{WindowOf, ExtremesOf, entries};

use crate::ends::Ends;
use crate::posted::{Relation, Term};
use crate::sum::Sum;
use rulebook::{Emptied, WindowSet, window_at};
use rules::NewWindows;
use windows::{Span, SpanRow};

// The weight of a term that passed its question.
#[derive(Clone, Copy)]
struct Weight {
    value: i32,
    ghost fits: { Weighs value },
}

// What the other terms leave of the bound, at least and at most: `total` is the sum of all, `own` the term itself. How far
// from 0 numbers may lie differs from step to step, so it is asked here and of the steps below, and is no property of `Ends`.
fn left_over(bound: i32, total: Ends, own: Ends) -> Ends
    requires bound { Small 1000000000 bound }
    requires total { (Small 80000000000 total.from) × (Small 80000000000 total.to) }
    requires own { (Small 10000000000 own.from) × (Small 10000000000 own.to) }
    ensures least { (result.from ≡ bound -ℤ (total.to -ℤ own.to)) × (Small 1000000000000 result.from) }
    ensures greatest { (result.to ≡ bound -ℤ (total.from -ℤ own.from)) × (Small 1000000000000 result.to) }
{
    Ends {
        from: i64::from(bound) - (total.to - own.to),
        to: i64::from(bound) - (total.from - own.from),
    }
}

// How far below 0 a number may lie: all the way, unless the sum is to equal its bound. A function of its own, since what the
// match has found would be lost where its arms meet.
fn depth(relation: Relation, low: i64, size: i64) -> i64
    requires { (Small 1000000000000 low) × (pos 1 ≤ℤ size) }
    ensures value { result ≡ (if is_exact relation then int_div_euclid (neg_ℤ low) size else pos 1000000) }
    ensures bound { Small 1000000000000 result }
{
    match relation {
        Relation::Equals => (-low).div_euclid(size),
        Relation::AtMost => 1_000_000,
    }
}

impl Weight {
    // What the weight times a number of the span can be at least, and at most.
    fn extremes(self, span: &Span) -> Ends
        ensures least { (result.from ≡ least_by (λ v. self.value *ℤ v) (range span.now.lo span.now.hi)) × (Small 10000000000 result.from) }
        ensures greatest { (result.to ≡ greatest_by (λ v. self.value *ℤ v) (range span.now.lo span.now.hi)) × (Small 10000000000 result.to) }
    {
        let ends = Ends::from(*span);
        let low = i64::from(self.value) * ends.from;
        let high = i64::from(self.value) * ends.to;
        Ends {
            from: low.min(high),
            to: low.max(high),
        }
    }

    // The numbers v, of those that a span may hold, for which the weight times v is at most the end of what is left and, if the
    // sum is to equal its bound, at least its start.
    fn quotients(self, relation: Relation, left: Ends) -> Ends
        requires { (Small 1000000000000 left.from) × (Small 1000000000000 left.to) }
        ensures { (v : ℤ) → negsuc 999999 ≤ℤ v → v ≤ℤ pos 1000000 → weighed self.value (is_exact relation) left.from left.to v ≡ between result.from result.to v }
    {
        let size = i64::from(self.value).abs();
        let above = left.to.div_euclid(size);
        let below = depth(relation, left.from, size);
        if self.value > 0 {
            Ends {
                from: -below,
                to: above,
            }
        } else {
            Ends {
                from: -above,
                to: below,
            }
        }
    }
}

impl Sum {
    // The terms that the narrowing takes.
    fn terms(&self) -> &[Term]
        ensures { result.now ≡ terms_of self.now }
    {
        self.terms.as_slice()
    }

    // The least and the greatest sum of the terms, none where the window of a term is missing.
    fn extremes(&self, rows: &[SpanRow]) -> Option<Ends>
        ensures { ExtremesOf (terms_of self.now) (map span_numbers rows.now) result }
    {
        let mut sums = Ends { from: 0, to: 0 };
        for term in self.terms() {
            let span = window_at::<Span>(rows, term.window)?;
            let weight = Weight { value: term.weight };
            let own = weight.extremes(&span);
            sums.from += own.from;
            sums.to += own.to;
        }
        Some(sums)
    }

    // The window of a term as the sum leaves it, none where it leaves no number.
    fn new_window(&self, weight: Weight, span: &Span, sums: Ends) -> Option<Span>
        requires { (Small 80000000000 sums.from) × (Small 80000000000 sums.to) }
        ensures { WindowOf (filter (weighed weight.value (is_exact self.now.relation) (self.now.bound -ℤ (sums.to -ℤ greatest_by (λ v. weight.value *ℤ v) (range span.now.lo span.now.hi))) (self.now.bound -ℤ (sums.from -ℤ least_by (λ v. weight.value *ℤ v) (range span.now.lo span.now.hi)))) (range span.now.lo span.now.hi)) result }
    {
        let own = weight.extremes(span);
        let left = left_over(self.bound, sums, own);
        let kept = weight.quotients(self.relation, left);
        span.clipped(kept.from, kept.to)
    }

    // The new windows of the terms, all made from the old rows.
    fn new_windows(&self, sums: Ends, rows: &[SpanRow]) -> NewWindows<Span>
        requires { ExtremesOf (terms_of self.now) (map span_numbers rows.now) (Some sums) }
        ensures { made (λ w. range w.lo w.hi) result ≡ entries (sum_new (terms_of self.now) self.now.bound (is_exact self.now.relation) (map span_numbers rows.now)) (terms_of self.now) }
    {
        let mut new = NewWindows::<Span>::new();
        for term in self.terms() {
            if let Some(span) = window_at::<Span>(rows, term.window) {
                let weight = Weight { value: term.weight };
                new.push(term.window, self.new_window(weight, &span, sums));
            }
        }
        new
    }

    // Narrows the rows by the sum. A sum that reads beyond the rows, and rows of which one fails its check, change nothing.
    pub fn narrow(&self, rows: &mut [SpanRow]) -> Result<WindowSet, Emptied>
        ensures equation { Tells (map span_numbers rows.old) (outcome (sum_meaning self.now) (map span_numbers rows.old)) result (map span_numbers rows.new) }
        ensures rows { RowsKept result rows.old rows.new }
        ensures keeps { SumKeeps self.now (map span_numbers rows.old) result (map span_numbers rows.new) }
        ensures reached { SumReached self.now }
    {
        match self.extremes(rows) {
            Some(sums) => self.new_windows(sums, rows).write(rows),
            None => Ok(WindowSet::empty()),
        }
    }
}
