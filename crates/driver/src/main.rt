// The driver, through which tests put requests to the functions of the other crates: docs/DRIVER.md has the format. It reads requests
// from standard input until that ends, and writes a line for each.
#![tactic(auto)]

use reply::print_bad;
use std::io::{Read, Write};
use wire::{Call, Request, Space, Spare, Unreadable, next_request};

// The rooms, each made by a function of its own, so that its zeros stand in no goal.
fn blank() -> Space {
    [0; 3_277_312]
}

fn blank_spare() -> Spare {
    [0; 1_200_000]
}

// No call has a number that `Call` does not know.
fn answer<I: Read, O: Write>(
    input: &mut I,
    output: &mut O,
    number: u8,
    request: Request,
    space: &mut Space,
    spare: &mut Spare,
) {
    match Call::try_from(number) {
        Ok(Call::Handset(call)) => handset_calls::serve(input, output, call, request, space),
        Ok(Call::Tree(call)) => tree_calls::serve(input, output, call, request, space),
        Ok(Call::Server(call)) => server_calls::serve(input, output, call, request, space, spare),
        Ok(Call::Proof(call)) => writer_calls::serve(input, output, call, request, space, spare),
        Ok(Call::Audit) => writer_calls::serve_audit(input, output, request, space, spare),
        Err(Unreadable) => print_bad(input, output, request),
    }
}

// Answers a request, and says whether there was one.
fn turn<I: Read, O: Write>(
    input: &mut I,
    output: &mut O,
    space: &mut Space,
    spare: &mut Spare,
) -> bool {
    match next_request(input) {
        Ok(None) => return false,
        Ok(Some((number, request))) => answer(input, output, number, request, space, spare),
        Err(Unreadable) => print_bad(input, output, Request { left: 0 }),
    }
    true
}

// A proved loop has to end, and nothing says that the input does: so it counts, to a number that no run comes to.
fn main(rt: HostRuntime) {
    let mut input = rt.stdin();
    let mut output = rt.stdout();
    let mut space = blank();
    let mut spare = blank_spare();
    for _ in 0..u64::MAX {
        if !turn(&mut input, &mut output, &mut space, &mut spare) {
            break;
        }
    }
}

#[cfg(test)]
mod tests {
    use super::{blank, blank_spare};
    use std::io::{Read, Write};
    use wire::{Call, Request, Space, Spare, Unreadable};

    const REFUSED: &[u8] = b"refused 1\n";

    // Each call by its number, small fields and a byte behind them, and its line by another implementation (`tests/plain_driver.py`).
    const CALLS: [(u8, &[u8], &[u8]); 14] = [
        (
            1,
            b"\0\0\0\0-",
            b"e3b0c44298fc1c149afbf4c8996fb92427ae41e4649b934ca495991b7852b855\n",
        ),
        (2, b"\0\0\0\x01\x10\0\0\0\x01\0-", b"3\n"),
        (3, b"\0\0\0\x02\0\x01\0\0\0\x04\0\0\0\x01-", b"3\n"),
        (4, b"\0\0\0\0\0\0\0\0\0\0\0\0-", REFUSED),
        (5, b"\0\0\0\0\0\0\0\0\0\0\0\0-", REFUSED),
        (6, b"\0\0\0\0\0\0\0\0\0\0\0\0-", REFUSED),
        (7, b"\0\0\0\0-", REFUSED),
        (8, b"\0\0\0\x01\xC1-", REFUSED),
        (9, b"\0\0\0\0\0\0\0\0\0\0\0\x02\0\0-", REFUSED),
        (10, b"\0\0\0\0-", REFUSED),
        (
            11,
            b"\0\0\0\0\0\0\0\0\0\0\0\x04\0\0\0\0\0\0\0\x04\0\0\0\0\0\0\0\0-",
            REFUSED,
        ),
        (
            12,
            b"\0\0\0\0\0\0\0\0\0\0\0\x04\0\0\0\0\0\0\0\x04\0\0\0\0\0\0\0\0\0\0\0\x04\0\0\0\0\0\0\0\x04\0\0\0\0-",
            REFUSED,
        ),
        (
            13,
            b"\0\0\0\0\0\0\0\0\0\0\0\x04\0\0\0\0\0\0\0\x04\0\0\0\0\0\0\0\0\0\0\0\x04\0\0\0\0\0\0\0\x04\0\0\0\0-",
            REFUSED,
        ),
        (
            14,
            b"\0\0\0\0\0\0\0\0\0\0\0\x04\0\0\0\0\0\0\0\x04\0\0\0\0\0\0\0\x04\0\0\0\0\0\0\0\x04\0\0\0\0-",
            REFUSED,
        ),
    ];

    // As `answer` of the driver, but a request that can't be read is handed back.
    fn answer<I: Read, O: Write>(
        input: &mut I,
        output: &mut O,
        number: u8,
        request: &mut Request,
        space: &mut Space,
        spare: &mut Spare,
    ) -> Result<(), Unreadable> {
        match Call::try_from(number)? {
            Call::Handset(call) => handset_calls::answer(input, output, call, request, space),
            Call::Tree(call) => tree_calls::answer(input, output, call, request, space),
            Call::Server(call) => server_calls::answer(input, output, call, request, space, spare),
            Call::Proof(call) => writer_calls::answer(input, output, call, request, space, spare),
            Call::Audit => writer_calls::answer_audit(input, output, request, space, spare),
        }
    }

    // A request that is read whole is answered; of one that has the byte behind its fields too, that byte is left, and nothing is written.
    #[test]
    fn of_each_call(rt: HostRuntime) {
        let mut space = blank();
        let mut spare = blank_spare();
        for (number, bytes, line) in CALLS {
            for (more, answered, written) in [(0, Ok(()), line), (1, Err(Unreadable), &b""[..])] {
                let mut input = bytes;
                let mut room = [b'-'; 80];
                let mut output = &mut room[..];
                let mut request = Request {
                    left: bytes.len().saturating_sub(1) + more,
                };
                assert_eq!(rt;
                    answer(
                        &mut input,
                        &mut output,
                        number,
                        &mut request,
                        &mut space,
                        &mut spare
                    ),
                    answered
                );
                let n = 80usize.saturating_sub(output.len());
                assert_eq!(rt; room.get(..n), Some(written));
                assert_eq!(rt; (request.left, input.len()), (more, 1));
            }
        }
    }
}
