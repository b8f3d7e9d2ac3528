// Products that passed their questions.
ghost use Rattle.std.specs.Prelude.{◌≡◌, true, false};
ghost use Rattle.products.specs.Products.{all_below, repeated};

mod check;
mod narrow;

// The product of windows p and q is to equal window r.
#[derive(Clone, Copy)]
pub struct Product {
    p: usize,
    q: usize,
    r: usize,
    ghost near: { all_below 64 p q r ≡ true },
    ghost different: { repeated p q r ≡ false },
}
