// The checking program: standard input, and the line that the library `line` makes of it.
#![tactic(auto)]

use line::program_line;
use streams::{read_full, write_all};

// One byte more than is checked, so that longer input is seen to be longer.
fn room() -> [u8; 65537] {
    [0u8; 65537]
}

fn main(rt: HostRuntime) {
    let mut input = room();
    let n = read_full(&mut rt.stdin(), &mut input);
    write_all(&mut rt.stdout(), program_line(&input[..n]).as_bytes());
}
