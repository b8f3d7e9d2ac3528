// What every kind of window offers.
ghost use Rattle.std.specs.Prelude.{◌≡◌, List, [], length, ℤ, MatchOption, ◌≢◌};
ghost use Rattle.windows.specs.Sets.{meet, remove, same_set, sole_of};
ghost use Rattle.windows.specs.Kinds.{Kind, Of, Proper, Smallest, all_but};

// A window is a set of whole numbers between -1,000,000 and 1,000,000 that is never empty.
// Tables keep windows as plain rows; `from_row` is the check that makes a window of a row.
pub trait Window: Copy {
    // a window as plain numbers, before its check
    type Row: Copy;

    // which sets are windows of this kind
    ghost kind: { Kind };

    // the numbers of a window
    ghost numbers: { Self → List ℤ };

    // the numbers that a row stands for, none where it fails its check
    ghost stands: { Self.Row → List ℤ };

    // The window that a row stands for, or none where it fails its check.
    fn from_row(row: Self::Row) -> Option<Self>
        ensures { MatchOption result (stands row ≡ []) (λ w. numbers w ≡ stands row) };

    // The row that stands for this window.
    fn row(&self) -> Self::Row
        ensures { stands result ≡ numbers self.now };

    // The numbers that are in both windows, or none if they share none.
    fn meet(&self, other: &Self) -> Option<Self>
        ensures { MatchOption result (meet (numbers self.now) (numbers other.now) ≡ []) (λ w. numbers w ≡ meet (numbers self.now) (numbers other.now)) };

    // The smallest window of the kind that holds all numbers but v, or none if no other is left.
    fn without(&self, v: i32) -> Option<Self>
        ensures equation { MatchOption result (all_but kind (numbers self.now) v ≡ []) (λ w. numbers w ≡ all_but kind (numbers self.now) v) }
        ensures smallest { MatchOption result (remove v (numbers self.now) ≡ []) (λ w. Smallest kind (remove v (numbers self.now)) (numbers w)) };

    // The one number of the window, or none if it has more.
    fn sole(&self) -> Option<i32>
        ensures { result ≡ sole_of (numbers self.now) };

    // How many numbers the window has.
    fn size(&self) -> u32
        ensures { result ≡ length (numbers self.now) };

    // Do both windows have the same numbers?
    fn alike(&self, other: &Self) -> bool
        ensures { result ≡ same_set (numbers self.now) (numbers other.now) };

    ghost proper: { Proper kind };

    ghost kinds: { (w : Self) → Of kind (numbers w) };

    ghost rows: { (row : Self.Row) → (stands row ≢ []) → Of kind (stands row) };

    // a window has one row
    ghost faithful: { (a b : Self.Row) → (stands a ≢ []) → stands a ≡ stands b → a ≡ b };
}
