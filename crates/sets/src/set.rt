// The set kind: some of the numbers from 0 to 63.
ghost use Rattle.std.specs.Prelude.{◌≡◌, ◌^◌, ◌<◌, [], MatchOption};
ghost use Rattle.windows.specs.Sets.{sole_of};
ghost use Rattle.windows.specs.Kinds.{all_but};
ghost use Rattle.sets.specs.Masks.{mask_numbers, set_numbers, parts};
ghost use Rattle.sets.specs.MaskLaws.{parts_proper, parts_of, row_of, row_faithful};

use windows::Window;

// A set as it stands in a table, before its check: bit v of the mask says whether v is in it.
#[derive(Clone, Copy, PartialEq, Debug)]
pub struct SetRow {
    pub mask: u64,
}

// The numbers whose bits are set in the mask, which is not 0.
#[derive(Clone, Copy, PartialEq)]
pub struct Set {
    mask: u64,
    ghost some: { (0 < mask) × (mask < 2 ^ 64) },
}

// The mask without the bit of v, if v has one.
fn cleared(mask: u64, v: i32) -> u64
    ensures { mask_numbers result ≡ all_but parts (mask_numbers mask) v }
{
    if v >= 0 && v < 64 {
        mask & !(1 << v)
    } else {
        mask
    }
}

// The one number of the mask, or none if it has more.
fn only(mask: u64) -> Option<i32>
    requires { 0 < mask }
    ensures { result ≡ sole_of (mask_numbers mask) }
{
    let top = 63 - mask.leading_zeros();
    if mask == 1 << top {
        Some(top as i32)
    } else {
        None
    }
}

impl Set {
    // The set with this mask, or none where no bit is set.
    fn from_mask(mask: u64) -> Option<Set>
        ensures { MatchOption result (mask_numbers mask ≡ []) (λ w. mask_numbers w.mask ≡ mask_numbers mask) }
    {
        if mask > 0 { Some(Set { mask }) } else { None }
    }
}

impl Window for Set {
    type Row = SetRow;

    ghost kind = { parts };

    ghost numbers = { λ w. mask_numbers w.mask };

    ghost stands = { λ row. set_numbers row };

    ghost proper = { parts_proper };

    ghost kinds = { λ w. parts_of w.mask w.some.0 w.some.1 };

    ghost rows = { row_of };

    ghost faithful = { row_faithful };

    fn from_row(row: SetRow) -> Option<Set> {
        Set::from_mask(row.mask)
    }

    fn row(&self) -> SetRow {
        SetRow { mask: self.mask }
    }

    fn meet(&self, other: &Set) -> Option<Set> {
        Set::from_mask(self.mask & other.mask)
    }

    fn without(&self, v: i32) -> Option<Set> {
        Set::from_mask(cleared(self.mask, v))
    }

    fn sole(&self) -> Option<i32> {
        only(self.mask)
    }

    fn size(&self) -> u32 {
        self.mask.count_ones()
    }

    fn alike(&self, other: &Set) -> bool {
        self == other
    }
}
