// What a server calls: start and publish, and the three writers. The state is a count and an epoch.
ghost use Rattle.std.specs.Prelude.{◌≡◌};
ghost use Rattle.paper.specs.Labelling.{plain};
ghost use Rattle.paper.specs.Publish as P;
ghost use Rattle.paper.specs.Write.{write_lookup, write_history, write_audit};
ghost use Rattle.noonhaggle.specs.Left.{start_left, publish_left, write_left};

use paper::State;
use results::{Published, Written};

pub fn noonhaggle_start(heads: &mut [u8]) -> Published
    ensures { record { result = result; heads = heads.new } ≡ start_left (P.start plain heads.old) }
{
    start::start(heads).into()
}

pub fn noonhaggle_publish(
    records: &mut [u8],
    heads: &mut [u8],
    count: u32,
    epoch: u32,
    batch: &[u8],
) -> Published
    ensures { record { result = result; records = records.new; heads = heads.new } ≡ publish_left (P.publish plain records.old heads.old (record { count = count; epoch = epoch }) batch.now) }
{
    publish::publish(records, heads, State { count, epoch }, batch).into()
}

pub fn noonhaggle_write_lookup(
    records: &[u8],
    heads: &[u8],
    count: u32,
    epoch: u32,
    name: &[u8],
    at: u32,
    out: &mut [u8],
) -> Written
    ensures { record { result = result; out = out.new } ≡ write_left (write_lookup plain records.now heads.now (record { count = count; epoch = epoch }) out.old name.now at) }
{
    write_proof::write_lookup(records, heads, State { count, epoch }, name, at, out).into()
}

// Two names, two exports: the C interface has them so.
pub fn noonhaggle_write_history(
    records: &[u8],
    heads: &[u8],
    count: u32,
    epoch: u32,
    name: &[u8],
    at: u32,
    out: &mut [u8],
) -> Written
    ensures { record { result = result; out = out.new } ≡ write_left (write_history plain records.now heads.now (record { count = count; epoch = epoch }) out.old name.now at) }
{
    write_proof::write_history(records, heads, State { count, epoch }, name, at, out).into()
}

pub fn noonhaggle_write_audit(
    records: &[u8],
    heads: &[u8],
    count: u32,
    epoch: u32,
    at: u32,
    out: &mut [u8],
) -> Written
    ensures { record { result = result; out = out.new } ≡ write_left (write_audit plain records.now heads.now (record { count = count; epoch = epoch }) out.old at) }
{
    write_audit::write_audit(records, heads, State { count, epoch }, at, out).into()
}
