// The driver's calls of the tree level. docs/DRIVER.md has each call's fields and answer. A call is one function, which reads its fields and
// answers a whole request, and one arm of `answer`.
#![tactic(auto)]

ghost use Rattle.wire.specs.Took.{Answered};

use reply::{print_bad, print_bytes, print_refused, print_text};
use std::io::{Read, Write};
use wire::{Request, Space, TreeCall, Unreadable};

// 8: the root over entries. Their bound is 8,192, and there is room for one more.
fn answer_tree_root<O: Write>(output: &mut O, entries: &[u8]) {
    let mut root = [0u8; 32];
    match level::tree_root(entries, &mut root) {
        Ok(_) => {
            print_bytes(output, &root);
            print_text(output, b"\n");
        }
        Err(refusal) => print_refused(output, refusal.number()),
    }
}

fn call_tree_root<I: Read, O: Write>(
    input: &mut I,
    output: &mut O,
    request: &mut Request,
    space: &mut Space,
) -> Result<(), Unreadable>
    ensures { Answered request.old request.new result }
{
    let n = request.read_at(input, space, 0, 557_124)?;
    request.end()?;
    answer_tree_root(output, &space[..n]);
    Ok(())
}

// Room for a path. None is longer: 256 steps of 34 bytes, a count, a kind, and an inner node's 98 bytes.
fn blank_path() -> [u8; 8805] {
    [0; 8805]
}

// 9: a label's path over entries.
fn answer_tree_path<O: Write>(output: &mut O, entries: &[u8], label: &[u8], absent: bool) {
    let mut path = blank_path();
    match level::tree_path(entries, label, absent, &mut path) {
        Ok(n) => {
            print_bytes(output, &path[..n]);
            print_text(output, b"\n");
        }
        Err(refusal) => print_refused(output, refusal.number()),
    }
}

// The label, of up to 256 bytes, lies behind the entries.
fn call_tree_path<I: Read, O: Write>(
    input: &mut I,
    output: &mut O,
    request: &mut Request,
    space: &mut Space,
) -> Result<(), Unreadable>
    ensures { Answered request.old request.new result }
{
    let behind = 557_124;
    let m = request.read_at(input, space, 0, behind)?;
    let n = request.read_at(input, space, behind, 256)?;
    let absent = u16::from_be_bytes(request.read_array(input)?) != 0;
    request.end()?;
    let fields = &space[..];
    answer_tree_path(output, &fields[..m], &fields[behind..behind + n], absent);
    Ok(())
}

// Reads and answers a request: one that can't be read has no answer.
pub fn answer<I: Read, O: Write>(
    input: &mut I,
    output: &mut O,
    call: TreeCall,
    request: &mut Request,
    space: &mut Space,
) -> Result<(), Unreadable>
    ensures { Answered request.old request.new result }
{
    match call {
        TreeCall::Root => call_tree_root(input, output, request, space),
        TreeCall::Path => call_tree_path(input, output, request, space),
    }
}

// Answers a request, also one that can't be read. It is not inlined: its row of leaves would lie in the driver's own frame, above those of
// the writers.
#[inline(never)]
pub fn serve<I: Read, O: Write>(
    input: &mut I,
    output: &mut O,
    call: TreeCall,
    mut request: Request,
    space: &mut Space,
) {
    if answer(input, output, call, &mut request, space).is_err() {
        print_bad(input, output, request);
    }
}
