// Text that is written piece after piece, before it is known whether it fits its place.
ghost use Rattle.std.specs.Prelude.{◌≡◌, ◌+◌, ◌≤◌, ◌++◌, length};
ghost use Rattle.arrayvec.specs.ArrayString.{array_string_len};

use arrayvec::ArrayString;
use itoa::{Buffer, Integer};

pub mod lines;

// The longest listing has a head and 64 lines of at most 80 bytes each.
type Text = ArrayString<8192>;

// A number in base ten, and what stands behind it. Tried with `write!`: no clause of it says that it succeeds where
// there is room, and a listing that fits has to be written.
// The digits are made in a buffer that is lent, so that it is made once for a listing.
fn push_number<I: Integer>(text: &mut Text, digits: &mut Buffer, n: I, end: &str)
    requires { array_string_len text.old + I.MAX_STR_LEN + length end.now ≤ 8192 }
    ensures bytes { text.new.bytes ≡ (text.old.bytes ++ I.text n) ++ end.now }
    ensures bound { array_string_len text.new ≤ array_string_len text.old + I.MAX_STR_LEN + length end.now }
{
    text.push_str(digits.format(n));
    text.push_str(end);
}
