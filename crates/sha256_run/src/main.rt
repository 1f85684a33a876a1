// Digests to hold against another SHA-256, one line of hexadecimal digits each: examples that NIST
// published, then a message of every length from 0 to 300 bytes. The other's lines are the file
// stdout; tests/sha256_stdout.py makes it.
#![tactic(auto)]

ghost use Rattle.std.specs.Prelude.{◌≡◌, ◌≤◌, length};

use std::io::Write;
use std::{array, io};

// A line, written at once: the digest of `m`.
fn show<O: Write>(output: &mut O, m: &[u8]) -> io::Result<()> {
    let mut line = [b'\n'; 65];
    // It fails only where the lengths do not agree.
    let _ = hex::encode_to_slice(sha256::sha256(m), &mut line[..64]);
    output.write_all(&line)
}

// Short messages: NIST's worked examples, then the first of its validation system's.
const SHORT: [&[u8]; 14] = [
    b"abc",
    b"",
    b"abcdbcdecdefdefgefghfghighijhijkijkljklmklmnlmnomnopnopq",
    b"abcdefghbcdefghicdefghijdefghijkefghijklfghijklmghijklmnhijklmnoijklmnopjklmnopqklmnopqrlmnopqrsmnopqrstnopqrstu",
    b"\xbd",
    b"\xc9\x8c\x8e\x55",
    b"\xd3",
    b"\x11\xaf",
    b"\xb4\x19\x0e",
    b"\x74\xba\x25\x21",
    b"\xc2\x99\x20\x96\x82",
    b"\xe1\xdc\x72\x4d\x56\x21",
    b"\x06\xe0\x76\xf5\xa4\x42\xd5",
    b"\x57\x38\xc9\x29\xc4\xf4\xcc\xb6",
];

// The letter a, a million times. The `ensures` gives only the length, which lending the array needs.
fn million() -> [u8; 1_000_000]
    ensures { 1_000_000 ≡ length result }
{
    [b'a'; 1_000_000]
}

// NIST's examples of one byte over and over: zeros about the end of a block, and longer messages.
fn long<O: Write>(output: &mut O) -> io::Result<()> {
    let zeros = [0u8; 1000];
    for m in [
        &zeros[..55],
        &zeros[..56],
        &zeros[..57],
        &zeros[..64],
        &zeros,
    ] {
        show(output, m)?;
    }
    show(output, &[0x41u8; 1000])?;
    show(output, &[0x55u8; 1005])?;
    show(output, &million())
}

// Messages are the first n of these bytes: byte i is 7 i + n modulo 256.
fn pattern(n: usize) -> [u8; 300]
    requires { n ≤ 300 }
{
    array::from_fn(|i| ((7 * i + n) % 256) as u8)
}

fn main(rt: HostRuntime) -> io::Result<()> {
    let mut output = rt.stdout();
    for m in SHORT {
        show(&mut output, m)?;
    }
    long(&mut output)?;
    for n in 0..301 {
        show(&mut output, &pattern(n)[..n])?;
    }
    Ok(())
}
