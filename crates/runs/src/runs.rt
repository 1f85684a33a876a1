// A history's runs.
ghost use Rattle.std.specs.Prelude.{◌≡◌, ℕ, ◌+◌, ◌-◌, ◌*◌, ◌<◌, ◌≤◌, Ok, IfOk};
ghost use Rattle.shown.specs.declared.Asked.{Asked};
ghost use Rattle.walks.specs.Walk.{walks, Ahead};
ghost use Rattle.runs.specs.Runs.{ask_version, ask_replaced, ask_current, ask_marker, row, VersionsAhead};

use crate::leaves::{epoch_behind, leaf_at};
use paper::Refusal;
use plan::Place;
use shown::{Asked, commitment_at, missing, present};
use walks::Reader;

// "Versions 1 to n present in *all*.": each with its key's commitment, later than the one before, and at an epoch up to the head's.
// The loop is its own, for the next key and the epoch before go from turn to turn: a closure that changes them is no plainer.
pub fn versions<'a>(first: Reader<'a>, n: u16, epoch: u32) -> Result<Reader<'a>, Refusal>
    requires { VersionsAhead n first }
    ensures is { result ≡ walks (row (ask_version first.entry.proof.now first.entry.at epoch) 1 (n + 1)) (Ok first.entry) }
    ensures counted { IfOk result (λ r. r.digests ≤ first.entry.digests + 258 * n) }
{
    let proof = first.proof;
    let mut reader = first;
    let mut item = 108;
    let mut low = 1u64;
    for i in 1..n + 1 {
        let key = commitment_at(proof, item);
        let asked = present(Place::InAll(i), key, low, epoch as u64);
        low = leaf_at(proof, reader.at).epoch as u64 + 1;
        item += 33 + proof[item] as usize;
        reader = reader.take(asked)?;
    }
    Ok(reader)
}

// "Versions 1 to n-1 present in *old*.": each with the epoch of the version after it, whose place goes from turn to turn.
pub fn replaced<'a>(from: Reader<'a>, first: usize, n: u16) -> Result<Reader<'a>, Refusal>
    requires { Ahead n from }
    ensures is { result ≡ walks (row (ask_replaced from.entry.proof.now first) 1 n) (Ok from.entry) }
    ensures counted { IfOk result (λ r. r.digests ≤ from.entry.digests + 258 * n) }
{
    let proof = from.proof;
    let mut reader = from;
    let mut later = leaf_at(proof, first).next;
    for i in 1..n {
        let leaf = leaf_at(proof, later);
        let e = leaf.epoch as u64;
        later = leaf.next;
        reader = reader.take(present(Place::InOld(i), [0u8; 32], e, e))?;
    }
    Ok(reader)
}

// "If n > 0, n absent from *old*."
pub fn current<'a>(reader: Reader<'a>, n: u16) -> Result<Reader<'a>, Refusal>
    requires { Ahead 1 reader }
    ensures is { result ≡ walks (ask_current n) (Ok reader.entry) }
    ensures counted { IfOk result (λ r. r.digests ≤ reader.entry.digests + 258) }
{
    if n == 0 {
        return Ok(reader);
    }
    reader.take(missing(Place::InOld(n)))
}

// The paths of the numbers from `low` up to `high`, each taken for what `ask` says of its number.
pub fn each<'a, F: Fn(u16) -> Asked>(
    from: Reader<'a>,
    low: u16,
    high: u16,
    ask: F,
) -> Result<Reader<'a>, Refusal>
    requires ahead { Ahead (high - low) from }
    requires callable { (i : ℕ) → i < high → F.pre ask i }
    ensures is { (f : ℕ → Asked) → ((i : ℕ) (x : Asked) → i < high → F.post ask i x → x ≡ f i) → result ≡ walks (row f low high) (Ok from.entry) }
    ensures counted { IfOk result (λ r. r.digests ≤ from.entry.digests + 258 * (high - low)) }
{
    let mut reader = from;
    for i in low..high {
        reader = reader.take(ask(i))?;
    }
    Ok(reader)
}

// Markers from 0 up to `marks` present, each with the epoch of version 2^j.
pub fn markers<'a>(from: Reader<'a>, first: usize, marks: u16) -> Result<Reader<'a>, Refusal>
    requires { Ahead marks from × (marks ≤ 10) }
    ensures is { result ≡ walks (row (ask_marker from.entry.proof.now first) 0 marks) (Ok from.entry) }
    ensures counted { IfOk result (λ r. r.digests ≤ from.entry.digests + 258 * marks) }
{
    let proof = from.proof;
    each(
        from,
        0,
        marks,
        |j|
            requires { j < 10 }
        {
            let e = epoch_behind(proof, first, (1usize << j) - 1) as u64;
            present(Place::AsMarker(j), [0u8; 32], e, e)
        },
    )
}
