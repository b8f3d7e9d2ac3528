// The questions that are asked of a sum.
ghost use Rattle.std.specs.Prelude.{◌≡◌, Some, None, MatchResult};
ghost use Rattle.sums.specs.Sums.{in_terms};
ghost use Rattle.sums.specs.Questions.{windows_below, apart, weighs, weights_fit, bound_fits, given, sum_asks};

use crate::posted::{MOST_TERMS, PostedSum, Term};
use rulebook::BookRefusal;

// How many windows a table may have.
const MOST_WINDOWS: usize = 64;

// Is window j one of the terms'?
pub fn has_window(terms: &[Term], j: usize) -> bool
    ensures { result ≡ in_terms terms.now j }
{
    terms.iter().any(|term| term.window == j)
}

// Is every window number below n?
fn windows_below(terms: &[Term], n: usize) -> bool
    ensures { result ≡ windows_below n terms.now }
{
    terms.iter().all(|term| term.window < n)
}

// Are all window numbers different? Each term is asked of those behind it, which no iterator over single terms hands out.
fn apart(terms: &[Term]) -> bool
    ensures { result ≡ apart terms.now }
{
    let mut rest = terms;
    while let [term, later @ ..] = rest {
        if has_window(later, term.window) {
            return false;
        }
        rest = later;
    }
    true
}

// Is the weight within 10,000, and not 0?
fn weighs(weight: i32) -> bool
    ensures { result ≡ weighs weight }
{
    (-10_000..=10_000).contains(&weight) && weight != 0
}

// Does every weight fit?
fn weights_fit(terms: &[Term]) -> bool
    ensures { result ≡ weights_fit terms.now }
{
    terms.iter().all(|term| weighs(term.weight))
}

// Is the bound within 1,000,000,000?
fn bound_fits(bound: i32) -> bool
    ensures { result ≡ bound_fits bound }
{
    (-1_000_000_000..=1_000_000_000).contains(&bound)
}

// The terms that were given, the first eight where there are more.
fn given(post: &PostedSum) -> &[Term]
    ensures { result.now ≡ given post.now }
{
    &post.terms[..post.count.min(MOST_TERMS)]
}

// Asks all questions of the sum on n windows.
pub fn ask(post: &PostedSum, n: usize) -> Result<(), BookRefusal>
    ensures { MatchResult result (λ _. sum_asks post.now n ≡ None) (λ f. sum_asks post.now n ≡ Some f) }
{
    if post.count == 0 || post.count > MOST_TERMS {
        return Err(BookRefusal::Terms);
    }
    let terms = given(post);
    if !windows_below(terms, n.min(MOST_WINDOWS)) {
        return Err(BookRefusal::Window);
    }
    if !apart(terms) {
        return Err(BookRefusal::Repeated);
    }
    if !weights_fit(terms) {
        return Err(BookRefusal::Weight);
    }
    if !bound_fits(post.bound) {
        return Err(BookRefusal::Bound);
    }
    Ok(())
}
