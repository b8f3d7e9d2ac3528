// The check that makes a product, and the windows that it reads.
ghost use Rattle.std.specs.Prelude.{◌≡◌, Some, None, MatchResult};
ghost use Rattle.products.specs.Products.{product_reads, product_asks};
ghost use Rattle.products.specs.Laws.{ProductMeans};

use crate::product::Product;
use rulebook::BookRefusal;

impl Product {
    // Asks whether windows p, q and r of n are three windows of the table. The questions are those of a pair, put to three numbers
    // by name: over a list of them they would need loops and no fewer lines.
    pub fn check(p: usize, q: usize, r: usize, n: usize) -> Result<Product, BookRefusal>
        ensures equation { MatchResult result (λ c. (product_asks p q r n ≡ None) × (c.p ≡ p) × (c.q ≡ q) × (c.r ≡ r)) (λ f. product_asks p q r n ≡ Some f) }
        ensures means { ProductMeans p q r result }
    {
        let end = n.min(64);
        if p >= end || q >= end || r >= end {
            return Err(BookRefusal::Window);
        }
        if p == q || p == r || q == r {
            return Err(BookRefusal::Repeated);
        }
        Ok(Product { p, q, r })
    }

    // Is j one of the three windows?
    pub fn reads(&self, j: usize) -> bool
        ensures { result ≡ product_reads self.now.p self.now.q self.now.r j }
    {
        self.r == j || self.p == j || self.q == j
    }
}
