// The driver's calls of the three writers; docs/DRIVER.md has their fields and answers. Tables and name lie in the space; the proof is
// written to the spare room, of which the request says how much is lent.
#![tactic(auto)]

ghost use Rattle.std.specs.Prelude.{◌+◌, ◌≤◌, length, IfOk};
ghost use Rattle.wire.specs.Took.{Answered};
ghost use Rattle.writer_calls.specs.Inside.{Inside};

use paper::{State, WriteAnswer};
use reply::{print_bad, print_bytes, print_refused, print_text};
use std::io::{Read, Write};
use wire::{ProofCall, Request, Space, Spare, Unreadable};

// The tables and the state of a request.
#[derive(Clone, Copy)]
struct Tables<'a> {
    records: &'a [u8],
    heads: &'a [u8],
    state: State,
}

// Tables lie in the space behind the room for a name of up to 1,024 bytes. Their bounds are 4,096 records and 65,536 heads, and there is room for one
// more of each.
fn read_tables<'a, I: Read>(
    input: &mut I,
    request: &mut Request,
    space: &'a mut [u8],
) -> Result<Tables<'a>, Unreadable>
    requires { 688_296 + 2_097_184 ≤ length space.old }
    ensures room { IfOk result (λ t. (length t.records.now ≤ 688_296) × (length t.heads.now ≤ 2_097_184)) }
    ensures left { request.new.left ≤ request.old.left }
{
    let k = request.read_at(input, space, 0, 688_296)?;
    let m = request.read_at(input, space, 688_296, 2_097_184)?;
    let count = u32::from_be_bytes(request.read_array(input)?);
    let epoch = u32::from_be_bytes(request.read_array(input)?);
    let tables = &space[..];
    Ok(Tables {
        records: &tables[..k],
        heads: &tables[688_296..688_296 + m],
        state: State { count, epoch },
    })
}

// How much of the spare room is lent: what the request says, and no more than there is.
fn read_room<'a, I: Read>(
    input: &mut I,
    request: &mut Request,
    spare: &'a mut Spare,
) -> Result<&'a mut [u8], Unreadable>
    ensures room { IfOk result (λ out. length out.now ≤ 1_200_000) }
    ensures left { request.new.left ≤ request.old.left }
{
    let room = u32::from_be_bytes(request.read_array(input)?) as usize;
    let most = room.min(spare.len());
    Ok(&mut spare[..most])
}

// 12: a lookup proof. 13: a history proof.
fn written(call: ProofCall, t: Tables, name: &[u8], epoch: u32, out: &mut [u8]) -> WriteAnswer
    ensures { Inside result out.new }
{
    match call {
        ProofCall::Lookup => {
            write_proof::write_lookup(t.records, t.heads, t.state, name, epoch, out)
        }
        ProofCall::History => {
            write_proof::write_history(t.records, t.heads, t.state, name, epoch, out)
        }
    }
}

// 14: an audit proof.
fn written_step(t: Tables, epoch: u32, out: &mut [u8]) -> WriteAnswer
    ensures { Inside result out.new }
{
    write_audit::write_audit(t.records, t.heads, t.state, epoch, out)
}

// A proof that was written, or the refusal.
fn print_written<O: Write>(output: &mut O, answer: WriteAnswer, out: &[u8])
    requires { Inside answer out.now }
{
    match answer {
        Ok(proof) => {
            print_bytes(output, &out[..proof.length]);
            print_text(output, b"\n");
        }
        Err(returned) => print_refused(output, returned.refusal.number()),
    }
}

// Reads and answers call 12 or 13: a request that can't be read has no answer.
#[inline(never)]
pub fn answer<I: Read, O: Write>(
    input: &mut I,
    output: &mut O,
    call: ProofCall,
    request: &mut Request,
    space: &mut Space,
    spare: &mut Spare,
) -> Result<(), Unreadable>
    ensures { Answered request.old request.new result }
{
    let (names, room) = space.split_at_mut(1024);
    let tables = read_tables(input, request, room)?;
    let n = request.read_field(input, names)?;
    let epoch = u32::from_be_bytes(request.read_array(input)?);
    let out = read_room(input, request, spare)?;
    request.end()?;
    let answer = written(call, tables, &names[..n], epoch, out);
    print_written(output, answer, out);
    Ok(())
}

// Answers call 12 or 13, also one that can't be read.
pub fn serve<I: Read, O: Write>(
    input: &mut I,
    output: &mut O,
    call: ProofCall,
    mut request: Request,
    space: &mut Space,
    spare: &mut Spare,
) {
    if answer(input, output, call, &mut request, space, spare).is_err() {
        print_bad(input, output, request);
    }
}

// Reads and answers call 14. Neither this nor `answer` is inlined: the compiler would join the frames of all three writers, with their arrays,
// in one.
#[inline(never)]
pub fn answer_audit<I: Read, O: Write>(
    input: &mut I,
    output: &mut O,
    request: &mut Request,
    space: &mut Space,
    spare: &mut Spare,
) -> Result<(), Unreadable>
    ensures { Answered request.old request.new result }
{
    let (_, room) = space.split_at_mut(1024);
    let tables = read_tables(input, request, room)?;
    let epoch = u32::from_be_bytes(request.read_array(input)?);
    let out = read_room(input, request, spare)?;
    request.end()?;
    let answer = written_step(tables, epoch, out);
    print_written(output, answer, out);
    Ok(())
}

// Answers call 14, also one that can't be read.
pub fn serve_audit<I: Read, O: Write>(
    input: &mut I,
    output: &mut O,
    mut request: Request,
    space: &mut Space,
    spare: &mut Spare,
) {
    if answer_audit(input, output, &mut request, space, spare).is_err() {
        print_bad(input, output, request);
    }
}
