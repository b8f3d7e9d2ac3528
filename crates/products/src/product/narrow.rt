// Narrowing rows by a product.
ghost use Rattle.std.specs.Prelude.{◌≡◌, ◌&&◌, map, ℤ, pos, negsuc, ◌*ℤ◌, neg_ℤ, ◌≤ℤ◌, int_lt, MatchOption};
ghost use Rattle.std.specs.Int.{int_div_euclid};
ghost use Rattle.windows.specs.Sets.{range, between};
ghost use Rattle.windows.specs.Rows.{span_numbers};
ghost use Rattle.rulebook.specs.Rules.{narrowed};
ghost use Rattle.rulebook.specs.Answers.{outcome, Tells, RowsKept};
ghost use Rattle.rules.specs.Pointwise.{rule_of, written};
ghost use Rattle.rules.specs.Made.{made};
ghost use Rattle.sums.specs.Sizes.{Small};
ghost use Rattle.sums.specs.Steps.{WindowOf};
ghost use Rattle.products.specs.Products.{least_product, greatest_product, multiplied, among_quotients, weakly_divides, divided, product_rule};

use crate::product::Product;
use rulebook::{Emptied, WindowSet, window_at};
use rules::NewWindows;
use sums::Ends;
use windows::{Span, SpanRow};

// The product of two numbers.
fn times(x: i32, y: i32) -> i64
    ensures { result ≡ x *ℤ y }
{
    i64::from(x) * i64::from(y)
}

// The smallest span around all products of a number of one span and one of the other: it reaches from corner to corner.
fn products(p: &Span, q: &Span) -> Ends
    ensures least { result.from ≡ least_product (range p.now.lo p.now.hi) (range q.now.lo q.now.hi) }
    ensures greatest { result.to ≡ greatest_product (range p.now.lo p.now.hi) (range q.now.lo q.now.hi) }
{
    let (a, b) = p.ends();
    let (c, d) = q.ends();
    let w = times(a, c);
    let x = times(a, d);
    let y = times(b, c);
    let z = times(b, d);
    Ends {
        from: w.min(x).min(y.min(z)),
        to: w.max(x).max(y.max(z)),
    }
}

// The numbers with their signs turned. How far from 0 numbers may lie differs from step to step, so it is asked here and of the
// two functions below, and is no property of `Ends`.
fn negated(ends: Ends) -> Ends
    requires { (Small 1000000000000 ends.from) × (Small 1000000000000 ends.to) }
    ensures { (result.from ≡ neg_ℤ ends.to) × (result.to ≡ neg_ℤ ends.from) }
{
    Ends {
        from: -ends.to,
        to: -ends.from,
    }
}

// The quotient, rounded up.
fn ceiling(x: i64, by: i64) -> i64
    requires { (Small 1000000000000 x) × (pos 1 ≤ℤ by) }
    ensures { result ≡ neg_ℤ (int_div_euclid (neg_ℤ x) by) }
{
    -(-x).div_euclid(by)
}

// The whole numbers between the least and the greatest of a/c, a/d, b/c and b/d, for a dividend from a to b and a divisor from
// c to d, above 0.
fn between_quotients(dividend: Ends, divisor: Ends) -> Ends
    requires dividend { (Small 1000000000000 dividend.from) × ((Small 1000000000000 dividend.to) × (dividend.from ≤ℤ dividend.to)) }
    requires divisor { (pos 1 ≤ℤ divisor.from) × (pos 1 ≤ℤ divisor.to) }
    ensures { (v : ℤ) → among_quotients dividend.from dividend.to divisor.from divisor.to v ≡ between result.from result.to v }
{
    let Ends { from: a, to: b } = dividend;
    let Ends { from: c, to: d } = divisor;
    Ends {
        from: ceiling(a, c).min(ceiling(a, d)),
        to: b.div_euclid(c).max(b.div_euclid(d)),
    }
}

// Is 0 in both?
fn zero_in_both(dividend: Ends, divisor: Ends) -> bool
    ensures { result ≡ (between dividend.from dividend.to (pos 0) && between divisor.from divisor.to (pos 0)) }
{
    dividend.from <= 0 && 0 <= dividend.to && divisor.from <= 0 && 0 <= divisor.to
}

// Does 0 lie between the ends, and is neither of them?
fn around_zero(ends: Ends) -> bool
    ensures { result ≡ (int_lt ends.from (pos 0) && int_lt (pos 0) ends.to) }
{
    ends.from < 0 && 0 < ends.to
}

// The weak division u : t, as far as a window may reach: all numbers where 0 is in both; else 0 is taken off t where it is
// an end. All numbers and no number are intervals too, the widest and one from 1 to 0: so one clause and one clipping serve
// all four cases, where an enum would take two more of each.
fn weak_quotients(u: &Span, t: &Span) -> Ends
    ensures { (v : ℤ) → negsuc 999999 ≤ℤ v → v ≤ℤ pos 1000000 → weakly_divides u.now.lo u.now.hi t.now.lo t.now.hi v ≡ between result.from result.to v }
{
    let dividend = Ends::from(*u);
    let divisor = Ends::from(*t);
    if zero_in_both(dividend, divisor) {
        return Ends {
            from: i64::MIN,
            to: i64::MAX,
        };
    }
    if around_zero(divisor) {
        let e = dividend.from.abs().max(dividend.to.abs());
        return Ends { from: -e, to: e };
    }
    if divisor.to > 0 {
        let above = Ends {
            from: divisor.from.max(1),
            to: divisor.to,
        };
        return between_quotients(dividend, above);
    }
    if divisor.from < 0 {
        let below = Ends {
            from: divisor.from,
            to: divisor.to.min(-1),
        };
        return between_quotients(negated(dividend), negated(below));
    }
    Ends { from: 1, to: 0 }
}

// The numbers of u in the smallest span around all products of s and t.
fn multiplied(u: &Span, s: &Span, t: &Span) -> Option<Span>
    ensures { WindowOf (multiplied (range u.now.lo u.now.hi) (range s.now.lo s.now.hi) (range t.now.lo t.now.hi)) result }
{
    let kept = products(s, t);
    u.clipped(kept.from, kept.to)
}

// The numbers of s in the weak division u : t.
fn divided(s: &Span, u: &Span, t: &Span) -> Option<Span>
    ensures { WindowOf (divided (range s.now.lo s.now.hi) (range u.now.lo u.now.hi) (range t.now.lo t.now.hi)) result }
{
    let kept = weak_quotients(u, t);
    s.clipped(kept.from, kept.to)
}

impl Product {
    // What windows p, q and r become, all made from the old rows; none where one is missing, and then the rule changes nothing.
    // Written into the rows they give the rule's outcome.
    fn new_windows(&self, rows: &[SpanRow]) -> Option<NewWindows<Span>>
        ensures { let o = outcome (rule_of (product_rule self.now.p self.now.q self.now.r)) (map span_numbers rows.now) in MatchOption result (o ≡ narrowed (map span_numbers rows.now)) (λ ws. written (map span_numbers rows.now) (made (λ w. range w.lo w.hi) ws) ≡ o) }
    {
        let first = window_at::<Span>(rows, self.p)?;
        let second = window_at::<Span>(rows, self.q)?;
        let product = window_at::<Span>(rows, self.r)?;
        let mut new = NewWindows::<Span>::new();
        new.push(self.p, divided(&first, &product, &second));
        new.push(self.q, divided(&second, &product, &first));
        new.push(self.r, multiplied(&product, &first, &second));
        Some(new)
    }

    // Narrows the rows by the product. A product that reads beyond the rows, and rows of which one fails its check, change
    // nothing.
    pub fn narrow(&self, rows: &mut [SpanRow]) -> Result<WindowSet, Emptied>
        ensures equation { Tells (map span_numbers rows.old) (outcome (rule_of (product_rule self.now.p self.now.q self.now.r)) (map span_numbers rows.old)) result (map span_numbers rows.new) }
        ensures rows { RowsKept result rows.old rows.new }
    {
        match self.new_windows(rows) {
            Some(new) => new.write(rows),
            None => Ok(WindowSet::empty()),
        }
    }
}
