// Lent rows, read as windows.
ghost use Rattle.std.specs.Prelude.{◌≡◌, [], map, MatchOption};
ghost use Rattle.rulebook.specs.Tables.{window, filled, all_filled};

use windows::Window;

// Does the row stand for a window?
fn is_window<W: Window>(row: W::Row) -> bool
    ensures { result ≡ filled (W.Window.stands row) }
{
    W::from_row(row).is_some()
}

// Is every row a window?
pub fn all_windows<W: Window>(rows: &[W::Row]) -> bool
    ensures { result ≡ all_filled (map W.Window.stands rows.now) }
{
    rows.iter().all(|row| is_window::<W>(*row))
}

// The window that row j stands for; none past the end of the rows, and where the row fails its check.
pub fn window_at<W: Window>(rows: &[W::Row], j: usize) -> Option<W>
    ensures { MatchOption result (window (map W.Window.stands rows.now) j ≡ []) (λ w. W.Window.numbers w ≡ window (map W.Window.stands rows.now) j) }
{
    W::from_row(*rows.get(j)?)
}
