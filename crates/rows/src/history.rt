// The rows of a history: "Versions 1 to n present in *all*. Versions 1 to n-1 present in *old*. If n > 0, n absent from *old*. With a =
// floor(log2 n): n+1 to 2^(a+1)-1 absent from *all*; markers 0 to a present; markers a+1 to min(9, floor(log2 T)) absent." Without
// versions the first five are empty, and the markers that there can be are absent.
ghost use Rattle.std.specs.Prelude.{◌≡◌, Ok};
ghost use Rattle.walks.specs.Walk.{walks};
ghost use Rattle.rows.specs.Rows.{all_rows, history_row, HistoryReady};

use paper::Refusal;
use plan::{Place, markers_by, markers_of};
use runs::{current, each, markers, replaced, versions};
use shown::missing;
use walks::Reader;

pub(crate) fn history_rows<'a>(
    reader: Reader<'a>,
    n: u16,
    epoch: u32,
) -> Result<Reader<'a>, Refusal>
    requires { HistoryReady n reader }
    ensures { result ≡ walks (all_rows (history_row reader.entry.proof.now reader.entry.at epoch n)) (Ok reader.entry) }
{
    let first = reader.at;
    let marks = markers_of(n as u32) as u16;
    let most = markers_by(epoch) as u16;
    let reader = versions(reader, n, epoch)?;
    let reader = replaced(reader, first, n)?;
    let reader = current(reader, n)?;
    let reader = each(reader, n + 1, 1u16 << marks, |i| missing(Place::InAll(i)))?;
    let reader = markers(reader, first, marks)?;
    each(reader, marks, most, |j| missing(Place::AsMarker(j)))
}
