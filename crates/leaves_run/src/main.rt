// Digests of sample strings of each kind that document 01 hashes, and bytes that were read, written
// and compared, a line each, to hold against a second reading of the document. The other's lines
// are the file stdout; tests/leaves_stdout.py makes it.
#![tactic(auto)]

ghost use Rattle.std.specs.Prelude.{◌≤◌};

use std::io::Write;
use std::{array, io};

// A line: a word, and bytes as hexadecimal digits.
fn show<O: Write>(output: &mut O, word: &[u8], bytes: &[u8]) -> io::Result<()> {
    output.write_all(word)?;
    for b in bytes {
        write!(output, "{b:02x}")?;
    }
    writeln!(output)
}

// A line: a word, and a number.
fn show_number<O: Write>(output: &mut O, word: &[u8], n: u64) -> io::Result<()> {
    output.write_all(word)?;
    writeln!(output, "{n}")
}

// Sample bytes: byte i is 37 part + 11 n + 7 i modulo 256.
fn sample(part: u8, n: u8) -> [u8; 32] {
    let start = 37 * (part as usize) + 11 * (n as usize);
    array::from_fn(|i| ((start + 7 * i) % 256) as u8)
}

// What holds a number of 32 bits: a leaf and a head.
fn epoch<O: Write>(output: &mut O, n: u8, e: u32) -> io::Result<()> {
    let first = sample(1, n);
    let second = sample(2, n);
    show(output, b"leaf ", &nodes::leaf(&first, &second, e))?;
    show(
        output,
        b"head ",
        &heads::head(e, &first, &second, &sample(3, n)),
    )?;
    number(output, e)
}

// Bytes that a number is written to, from which numbers are read, at its own place and at others.
fn number<O: Write>(output: &mut O, e: u32) -> io::Result<()> {
    let mut bytes = [0xEEu8; 9];
    words::write32(&mut bytes, 1, e);
    words::write16(&mut bytes, 6, (e % 65536) as u16);
    show(output, b"written ", &bytes)?;
    numbers(output, &bytes)
}

fn numbers<O: Write>(output: &mut O, bytes: &[u8; 9]) -> io::Result<()> {
    for at in [1, 4] {
        show_number(output, b"read32 ", words::read32(bytes, at) as u64)?;
    }
    for at in [0, 6] {
        show_number(output, b"read16 ", words::read16(bytes, at) as u64)?;
    }
    Ok(())
}

fn epochs<O: Write>(output: &mut O) -> io::Result<()> {
    let epochs = [
        0,
        1,
        2,
        255,
        256,
        65_535,
        65_536,
        16_777_215,
        16_777_216,
        2_147_483_647,
        2_147_483_648,
        4_294_967_295,
    ];
    for (n, e) in (0..12).zip(epochs) {
        epoch(output, n, e)?;
    }
    Ok(())
}

// An inner node, and the two nodes above a child.
fn node<O: Write>(output: &mut O, n: u8, length: u16) -> io::Result<()> {
    let a = sample(1, n);
    let b = sample(2, n);
    let c = sample(3, n);
    show(output, b"inner ", &nodes::inner(length, &a, &b, &c))?;
    show(output, b"below 0 ", &nodes::join(false, length, &a, &b, &c))?;
    show(output, b"below 1 ", &nodes::join(true, length, &a, &b, &c))
}

fn nodes<O: Write>(output: &mut O) -> io::Result<()> {
    show(output, b"nothing ", &nodes::nothing())?;
    let lengths = [0, 1, 7, 8, 127, 128, 254, 255, 256, 257, 32_768, 65_535];
    for (n, length) in (0..12).zip(lengths) {
        node(output, n, length)?;
    }
    Ok(())
}

// The label of a name of n bytes.
fn label<O: Write>(output: &mut O, kind: u8, number: u16, n: usize) -> io::Result<()>
    requires { n ≤ 64 }
{
    let name: &[u8] = b"!0123456789abcdefghijklmnopqrstuvwxyz@example.org/NOONHAGGLE(x)~";
    show(output, b"label ", &labels::label(kind, number, &name[0..n]))
}

fn labels<O: Write>(output: &mut O) -> io::Result<()> {
    let versions = [
        (1, 1),
        (1, 64),
        (2, 51),
        (255, 52),
        (256, 59),
        (1_023, 60),
        (1_023, 64),
    ];
    for (number, n) in versions {
        label(output, 1, number, n)?;
    }
    for (number, n) in [(0, 1), (0, 64), (1, 2), (9, 63), (9, 64)] {
        label(output, 2, number, n)?;
    }
    Ok(())
}

// The commitment to a key of n bytes, which are two samples.
fn commitment<O: Write>(output: &mut O, n: usize) -> io::Result<()>
    requires { n ≤ 64 }
{
    let mut key = [0u8; 64];
    ranges::put(&mut key, 0, &sample(4, 1));
    ranges::put(&mut key, 32, &sample(5, 1));
    show(
        output,
        b"commitment ",
        &labels::commitment(&sample(6, 1), &key[0..n]),
    )
}

fn commitments<O: Write>(output: &mut O) -> io::Result<()> {
    for n in [1, 2, 16, 22, 23, 30, 31, 32, 33, 62, 63, 64] {
        commitment(output, n)?;
    }
    Ok(())
}

// A copy to a place, and what stands at another.
fn copy<O: Write>(output: &mut O, at: usize, from: usize) -> io::Result<()>
    requires { (at ≤ 32) × (from ≤ 32) }
{
    let mut bytes = [0xEEu8; 64];
    ranges::put(&mut bytes, at, &sample(7, 1));
    show(output, b"put ", &bytes)?;
    show(output, b"digest_at ", &ranges::digest_at(&bytes, from))
}

fn compare<O: Write>(output: &mut O, a: &[u8], b: &[u8]) -> io::Result<()> {
    show_number(output, b"same ", ranges::same(a, b) as u64)?;
    show_number(output, b"all_zero ", ranges::all_zero(a) as u64)
}

fn comparisons<O: Write>(output: &mut O) -> io::Result<()> {
    let pairs: [(&[u8], &[u8]); 12] = [
        (b"", b""),
        (b"", b"a"),
        (b"a", b""),
        (b"a", b"a"),
        (b"a", b"b"),
        (b"ab", b"a"),
        (b"ab", b"aa"),
        (b"ab", b"bb"),
        (b"\x00", b"\x00\x00"),
        (b"\x00\x00", b"\x00\x01"),
        (b"\x00\x01", b"\x00\x01"),
        (b"\x01\x00", b"\x00\x00"),
    ];
    for (a, b) in pairs {
        compare(output, a, b)?;
    }
    Ok(())
}

fn main(rt: HostRuntime) -> io::Result<()> {
    let mut out = rt.stdout();
    let output = &mut out;
    epochs(output)?;
    nodes(output)?;
    labels(output)?;
    commitments(output)?;
    for (at, from) in [(0, 0), (1, 0), (31, 32), (32, 17)] {
        copy(output, at, from)?;
    }
    comparisons(output)
}
