// Writing an answer's line to the output, part by part.
#![tactic(auto)]

ghost use Rattle.std.specs.Prelude.{◌≡◌, ◌+◌, ◌*◌, ◌<◌, ◌≤◌, length, take};
ghost use Rattle.io.specs.Digits.{hex_digit_ascii};
ghost use Rattle.reply.specs.Text.{hex_text};

use std::io::{Read, Write};
use streams::write_all;
use wire::Request;

// Writes a text as it stands: a word, a blank between two parts, or the line's end.
pub fn print_text<O: Write>(output: &mut O, text: &[u8]) {
    write_all(output, text);
}

// Writes a number in decimal digits.
pub fn print_number<O: Write>(output: &mut O, n: u64) {
    let _ = write!(output, "{n}");
}

// Writes the line of a refusal. Part by part, as every line: a part that the output does not take is dropped, and the next one is tried;
// `writeln!` would drop what follows, the line's end too.
pub fn print_refused<O: Write>(output: &mut O, n: u8) {
    print_text(output, b"refused ");
    print_number(output, n as u64);
    print_text(output, b"\n");
}

// Writes the line of a request that can't be read, and reads past what is left of it.
pub fn print_bad<I: Read, O: Write>(input: &mut I, output: &mut O, rest: Request) {
    print_text(output, b"bad\n");
    rest.skip_rest(input);
}

// A hexadecimal digit, in lower case.
fn digit(n: u8) -> u8
    requires { n < 16 }
    ensures { result ≡ hex_digit_ascii n }
{
    if n < 10 { 48 + n } else { 87 + n }
}

// Lays two digits for each byte at the start of the text. A loop: by the library's `hex` a line of 2 MB takes 1.7 times as long.
fn spell(bytes: &[u8], text: &mut [u8])
    requires { length bytes.now * 2 ≤ length text.old }
    ensures { take (length bytes.now * 2) text.new ≡ hex_text bytes.now }
{
    for i in 0..bytes.len() {
        text[i * 2] = digit(bytes[i] / 16);
        text[i * 2 + 1] = digit(bytes[i] % 16);
    }
}

// Writes up to 2,048 bytes. The text has room for their digits.
fn print_part<O: Write>(output: &mut O, bytes: &[u8])
    requires { length bytes.now ≤ 2048 }
{
    let mut text = io::buffer();
    spell(bytes, &mut text);
    print_text(output, &text[..bytes.len() * 2]);
}

// Writes bytes in hexadecimal digits, two for each, with few calls of the system; no bytes are a dash.
pub fn print_bytes<O: Write>(output: &mut O, bytes: &[u8]) {
    if bytes.is_empty() {
        print_text(output, b"-");
    }
    for part in bytes.chunks(2048) {
        print_part(output, part);
    }
}
