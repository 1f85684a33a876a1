// The rows of a lookup, each of one path. "If 0: one path, version 1 absent from *all*. Otherwise .. paths: version v present in *all*,
// v absent from *old*, marker floor(log2 v) present in *all*."
ghost use Rattle.std.specs.Prelude.{◌≡◌, Ok};
ghost use Rattle.walks.specs.Walk.{walks};
ghost use Rattle.rows.specs.Rows.{all_rows, lookup_row, LookupReady};

use bits::marker_of;
use paper::Refusal;
use plan::Place;
use runs::leaf_at;
use shown::{commitment_at, missing, present};
use walks::Reader;

// "The version's leaf has the key's commitment, and its epoch e has v ≤ e ≤ t; the marker's epoch is from 2^floor(log2 v) to e."
pub(crate) fn lookup_rows<'a>(
    reader: Reader<'a>,
    version: u16,
    epoch: u32,
) -> Result<Reader<'a>, Refusal>
    requires { LookupReady version reader }
    ensures { result ≡ walks (all_rows (lookup_row reader.entry.proof.now reader.entry.at epoch version)) (Ok reader.entry) }
{
    if version == 0 {
        return reader.take(missing(Place::InAll(1)));
    }
    let own = commitment_at(reader.proof, 108);
    let leaf = leaf_at(reader.proof, reader.at);
    let marker = marker_of(version as u32);
    let place = Place::AsMarker(marker as u16);
    let reader = reader.take(present(Place::InAll(version), own, version as u64, epoch as u64))?;
    let reader = reader.take(missing(Place::InOld(version)))?;
    reader.take(present(place, [0u8; 32], 1u64 << marker, leaf.epoch as u64))
}
