// The driver's calls of the handset: the checkers, the checking program's line, and what they rest on. docs/DRIVER.md has each call's
// fields and answer. A call is one function that answers a request, and one arm of `answer`.
#![tactic(auto)]

ghost use Rattle.wire.specs.Took.{Answered};

use paper::{AcceptedAudit, AcceptedHistory, AcceptedLookup};
use reply::{print_bad, print_bytes, print_number, print_refused, print_text};
use std::io::{Read, Write};
use wire::{HandsetCall, Request, Space, Unreadable};

// 1: the digest of data of up to 65,536 bytes.
fn call_sha256<I: Read, O: Write>(
    input: &mut I,
    output: &mut O,
    request: &mut Request,
    space: &mut Space,
) -> Result<(), Unreadable>
    ensures { Answered request.old request.new result }
{
    let n = request.read_at(input, space, 0, 65_536)?;
    request.end()?;
    print_bytes(output, &sha256::sha256(&space[..n]));
    print_text(output, b"\n");
    Ok(())
}

// 2: the first difference of two labels, each of up to 64 bytes.
fn call_first_difference<I: Read, O: Write>(
    input: &mut I,
    output: &mut O,
    request: &mut Request,
    space: &mut Space,
) -> Result<(), Unreadable>
    ensures { Answered request.old request.new result }
{
    let m = request.read_at(input, space, 0, 64)?;
    let n = request.read_at(input, space, 64, 64)?;
    request.end()?;
    let labels = &space[..];
    let bit = bits::first_difference(&labels[..m], &labels[64..64 + n]);
    print_number(output, bit as u64);
    print_text(output, b"\n");
    Ok(())
}

// 3: the number of a history's paths, by n and T.
fn call_history_paths<I: Read, O: Write>(
    input: &mut I,
    output: &mut O,
    request: &mut Request,
) -> Result<(), Unreadable>
    ensures { Answered request.old request.new result }
{
    let n = u16::from_be_bytes(request.read_array(input)?);
    let epoch = u32::from_be_bytes(request.read_array(input)?);
    request.end()?;
    print_number(output, plan::history_paths(n, epoch) as u64);
    print_text(output, b"\n");
    Ok(())
}

// The fields of a checker: a head, a name or a second head, each of up to 256 bytes, and a proof.
#[derive(Clone, Copy)]
struct Fields<'a> {
    head: &'a [u8],
    second: &'a [u8],
    proof: &'a [u8],
}

fn read_fields<'a, I: Read>(
    input: &mut I,
    request: &mut Request,
    space: &'a mut Space,
) -> Result<Fields<'a>, Unreadable>
    ensures { Answered request.old request.new result }
{
    let k = request.read_at(input, space, 0, 256)?;
    let m = request.read_at(input, space, 256, 256)?;
    let n = request.read_at(input, space, 512, 3_276_800)?;
    request.end()?;
    let fields = &space[..];
    Ok(Fields {
        head: &fields[..k],
        second: &fields[256..256 + m],
        proof: &fields[512..512 + n],
    })
}

// Three numbers with a blank between them.
fn print_three<O: Write>(output: &mut O, a: u64, b: u64, c: u64) {
    print_number(output, a);
    print_text(output, b" ");
    print_number(output, b);
    print_text(output, b" ");
    print_number(output, c);
}

// 4: version, epoch, digests, and where the accepted key starts and ends. A program can't ask where a slice lies; that the key lies there
// is proved.
fn answer_lookup<O: Write>(output: &mut O, fields: Fields) {
    let Fields {
        head,
        second,
        proof,
    } = fields;
    let key = lookup::accepted_key(head, second, proof).len();
    match lookup::check_lookup(head, second, proof) {
        Ok(
            AcceptedLookup::Found {
                version,
                epoch,
                digests,
            },
        ) => {
            print_three(output, version as u64, epoch as u64, digests as u64);
            print_text(output, b" 109 ");
            print_number(output, 109 + key as u64);
            print_text(output, b"\n");
        }
        Ok(AcceptedLookup::NotRegistered { epoch, digests }) => {
            print_three(output, 0, epoch as u64, digests as u64);
            print_text(output, b" 0 ");
            print_number(output, key as u64);
            print_text(output, b"\n");
        }
        Err(refusal) => print_refused(output, refusal.number()),
    }
}

// 5: n, epoch, digests.
fn answer_history<O: Write>(output: &mut O, fields: Fields) {
    match history::check_history(fields.head, fields.second, fields.proof) {
        Ok(
            AcceptedHistory {
                versions,
                epoch,
                digests,
            },
        ) => {
            print_three(output, versions as u64, epoch as u64, digests as u64);
            print_text(output, b"\n");
        }
        Err(refusal) => print_refused(output, refusal.number()),
    }
}

// 6: both epochs, digests.
fn answer_audit<O: Write>(output: &mut O, fields: Fields) {
    match audit::check_audit(fields.head, fields.second, fields.proof) {
        Ok(
            AcceptedAudit {
                old_epoch,
                new_epoch,
                digests,
            },
        ) => {
            print_three(output, old_epoch as u64, new_epoch as u64, digests as u64);
            print_text(output, b"\n");
        }
        Err(refusal) => print_refused(output, refusal.number()),
    }
}

// 7: the line of the checking program, whose input is up to 131,072 bytes, more than it takes.
fn call_program<I: Read, O: Write>(
    input: &mut I,
    output: &mut O,
    request: &mut Request,
    space: &mut Space,
) -> Result<(), Unreadable>
    ensures { Answered request.old request.new result }
{
    let n = request.read_at(input, space, 0, 131_072)?;
    request.end()?;
    print_text(output, line::program_line(&space[..n]).as_bytes());
    Ok(())
}

// Reads and answers a request: one that can't be read has no answer.
pub fn answer<I: Read, O: Write>(
    input: &mut I,
    output: &mut O,
    call: HandsetCall,
    request: &mut Request,
    space: &mut Space,
) -> Result<(), Unreadable>
    ensures { Answered request.old request.new result }
{
    match call {
        HandsetCall::Sha256 => return call_sha256(input, output, request, space),
        HandsetCall::FirstDifference => return call_first_difference(input, output, request, space),
        HandsetCall::HistoryPaths => return call_history_paths(input, output, request),
        HandsetCall::CheckLookup => answer_lookup(output, read_fields(input, request, space)?),
        HandsetCall::CheckHistory => answer_history(output, read_fields(input, request, space)?),
        HandsetCall::CheckAudit => answer_audit(output, read_fields(input, request, space)?),
        HandsetCall::Program => return call_program(input, output, request, space),
    }
    Ok(())
}

// Answers a request, also one that can't be read.
pub fn serve<I: Read, O: Write>(
    input: &mut I,
    output: &mut O,
    call: HandsetCall,
    mut request: Request,
    space: &mut Space,
) {
    if answer(input, output, call, &mut request, space).is_err() {
        print_bad(input, output, request);
    }
}
