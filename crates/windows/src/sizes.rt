// How many numbers the windows of a table have together.
ghost use Rattle.std.specs.Prelude.{◌≡◌, map};
ghost use Rattle.windows.specs.Sets.{sizes};

use crate::window::Window;

// The sum of all sizes; a row that fails its check has none.
pub fn sum_of_sizes<W: Window>(rows: &[W::Row]) -> u128
    ensures { result ≡ sizes (map W.Window.stands rows.now) }
{
    let mut sum: u128 = 0;
    for row in rows {
        if let Some(window) = W::from_row(*row) {
            sum += u128::from(window.size());
        }
    }
    sum
}
