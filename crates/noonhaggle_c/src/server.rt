// What a server links: start and publish, and the three writers. The state is a count and an epoch.
ghost use Rattle.std.specs.Prelude.{◌≡◌};
ghost use Rattle.paper.specs.Labelling.{plain};
ghost use Rattle.paper.specs.Publish as P;
ghost use Rattle.paper.specs.Write.{write_lookup, write_history, write_audit};
ghost use Rattle.noonhaggle.specs.Left.{start_left, publish_left, write_left};

use results::{Published, Written};

#[unsafe(no_mangle)]
pub extern "C" fn noonhaggle_start(heads: &mut [u8]) -> Published
    ensures { record { result = result; heads = heads.new } ≡ start_left (P.start plain heads.old) }
{
    noonhaggle::noonhaggle_start(heads)
}

#[unsafe(no_mangle)]
pub extern "C" fn noonhaggle_publish(
    records: &mut [u8],
    heads: &mut [u8],
    count: u32,
    epoch: u32,
    batch: &[u8],
) -> Published
    ensures { record { result = result; records = records.new; heads = heads.new } ≡ publish_left (P.publish plain records.old heads.old (record { count = count; epoch = epoch }) batch.now) }
{
    noonhaggle::noonhaggle_publish(records, heads, count, epoch, batch)
}

#[unsafe(no_mangle)]
pub extern "C" fn noonhaggle_write_lookup(
    records: &[u8],
    heads: &[u8],
    count: u32,
    epoch: u32,
    name: &[u8],
    at: u32,
    out: &mut [u8],
) -> Written
    ensures { record { result = result; out = out.new } ≡ write_left (write_lookup plain records.now heads.now (record { count = count; epoch = epoch }) out.old name.now at) }
{
    noonhaggle::noonhaggle_write_lookup(records, heads, count, epoch, name, at, out)
}

#[unsafe(no_mangle)]
pub extern "C" fn noonhaggle_write_history(
    records: &[u8],
    heads: &[u8],
    count: u32,
    epoch: u32,
    name: &[u8],
    at: u32,
    out: &mut [u8],
) -> Written
    ensures { record { result = result; out = out.new } ≡ write_left (write_history plain records.now heads.now (record { count = count; epoch = epoch }) out.old name.now at) }
{
    noonhaggle::noonhaggle_write_history(records, heads, count, epoch, name, at, out)
}

#[unsafe(no_mangle)]
pub extern "C" fn noonhaggle_write_audit(
    records: &[u8],
    heads: &[u8],
    count: u32,
    epoch: u32,
    at: u32,
    out: &mut [u8],
) -> Written
    ensures { record { result = result; out = out.new } ≡ write_left (write_audit plain records.now heads.now (record { count = count; epoch = epoch }) out.old at) }
{
    noonhaggle::noonhaggle_write_audit(records, heads, count, epoch, at, out)
}
