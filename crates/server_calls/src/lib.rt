// The driver's calls of the server: starting a directory and publishing. docs/DRIVER.md has each call's fields and answer. A
// call is one function, which reads its fields and answers a whole request, and one arm of `answer`.
#![tactic(auto)]

ghost use Rattle.wire.specs.Took.{Answered};

use paper::State;
use reply::{print_bad, print_bytes, print_number, print_refused, print_text};
use std::io::{Read, Write};
use wire::{Request, ServerCall, Space, Spare, Unreadable};

// The state and a blank after it.
fn print_state<O: Write>(output: &mut O, state: State) {
    print_number(output, state.count as u64);
    print_text(output, b" ");
    print_number(output, state.epoch as u64);
    print_text(output, b" ");
}

// 10: the state, and the heads as they are left.
fn answer_start<O: Write>(output: &mut O, heads: &mut [u8]) {
    match start::start(heads) {
        Ok(state) => {
            print_state(output, state);
            print_bytes(output, heads);
            print_text(output, b"\n");
        }
        Err(refusal) => print_refused(output, refusal.number()),
    }
}

// The bound of heads is 65,536, and there is room for one more.
fn call_start<I: Read, O: Write>(
    input: &mut I,
    output: &mut O,
    request: &mut Request,
    space: &mut Space,
) -> Result<(), Unreadable>
    ensures { Answered request.old request.new result }
{
    let n = request.read_at(input, space, 0, 2_097_184)?;
    request.end()?;
    answer_start(output, &mut space[..n]);
    Ok(())
}

// Room for 256 updates, which is their bound, and one more.
fn blank_batch() -> [u8; 41634] {
    [0; 41634]
}

// 11: the new state, and records and heads as they are left.
fn answer_publish<O: Write>(
    output: &mut O,
    records: &mut [u8],
    heads: &mut [u8],
    state: State,
    batch: &[u8],
) {
    match publish::publish(records, heads, state, batch) {
        Ok(new) => {
            print_state(output, new);
            print_bytes(output, records);
            print_text(output, b" ");
            print_bytes(output, heads);
            print_text(output, b"\n");
        }
        Err(returned) => print_refused(output, returned.refusal.number()),
    }
}

// Both tables are lent to be written, so they can't both lie in the space: the heads do, and the records in the spare room. There is room for
// 4,096 records, which is their bound, and one more.
fn call_publish<I: Read, O: Write>(
    input: &mut I,
    output: &mut O,
    request: &mut Request,
    space: &mut Space,
    spare: &mut Spare,
) -> Result<(), Unreadable>
    ensures { Answered request.old request.new result }
{
    let mut batch = blank_batch();
    let k = request.read_at(input, spare, 0, 688_296)?;
    let m = request.read_at(input, space, 0, 2_097_184)?;
    let count = u32::from_be_bytes(request.read_array(input)?);
    let epoch = u32::from_be_bytes(request.read_array(input)?);
    let n = request.read_field(input, &mut batch)?;
    request.end()?;
    answer_publish(
        output,
        &mut spare[..k],
        &mut space[..m],
        State { count, epoch },
        &batch[..n],
    );
    Ok(())
}

// Reads and answers a request: one that can't be read has no answer.
pub fn answer<I: Read, O: Write>(
    input: &mut I,
    output: &mut O,
    call: ServerCall,
    request: &mut Request,
    space: &mut Space,
    spare: &mut Spare,
) -> Result<(), Unreadable>
    ensures { Answered request.old request.new result }
{
    match call {
        ServerCall::Start => call_start(input, output, request, space),
        ServerCall::Publish => call_publish(input, output, request, space, spare),
    }
}

// Answers a request, also one that can't be read.
pub fn serve<I: Read, O: Write>(
    input: &mut I,
    output: &mut O,
    call: ServerCall,
    mut request: Request,
    space: &mut Space,
    spare: &mut Spare,
) {
    if answer(input, output, call, &mut request, space, spare).is_err() {
        print_bad(input, output, request);
    }
}
