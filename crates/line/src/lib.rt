// The checking program's line, as a function of its input: "`version V epoch T digests C` .. or `refused N`", and a newline.
// The line grows from the front of a text of 64 bytes, which holds the longest.
#![tactic(auto)]

ghost use Rattle.std.specs.Prelude.{◌≡◌, ◌+◌, ◌≤◌, Err, length, take};
ghost use Rattle.paper.specs.Program as P;
ghost use Rattle.line.specs.Written.{empty, behind, text_of};

use lookup::check_lookup;
use paper::{AcceptedLookup, LookupAnswer, Refusal};
use ranges::put;

// Bytes, of which the first `length` are written, and the others zero: an array, as the project has no heap for a String.
#[derive(Clone, Copy)]
pub struct Text {
    pub bytes: [u8; 64],
    pub length: usize,
}

impl Text {
    // A text of which nothing is written.
    fn new() -> Text
        ensures { result ≡ empty }
    {
        Text {
            bytes: [0; 64],
            length: 0,
        }
    }

    // The text with a word behind what is written.
    fn word(mut self, word: &[u8]) -> Text
        requires { self.length + length word.now ≤ 64 }
        ensures { result ≡ behind self word.now }
    {
        let at = self.length;
        put(&mut self.bytes, at, word);
        self.length = at + word.len();
        self
    }

    // The text with a number behind what is written.
    fn decimal(self, n: u32) -> Text
        requires { self.length + length (P.decimal n) ≤ 64 }
        ensures { result ≡ behind self (P.decimal n) }
    {
        let mut digits = [0u8; 20];
        let k = io::decimal(n as u64, &mut digits);
        self.word(&digits[..k])
    }

    // What is written.
    pub fn as_bytes(&self) -> &[u8]
        requires { self.now.length ≤ 64 }
        ensures value { result.now ≡ take self.now.length self.now.bytes }
        ensures block { result.ref_ptr.0 ≡ self.entry.ref_ptr.0 }
        ensures offset { result.ref_ptr.1 ≡ self.entry.ref_ptr.1 }
    {
        &self.bytes[..self.length]
    }
}

// "version V epoch T digests C"
fn accepted(version: u16, epoch: u32, digests: u32) -> Text
    ensures { result ≡ text_of (P.accepted version epoch digests) }
{
    Text::new()
        .word(b"version ")
        .decimal(version as u32)
        .word(b" epoch ")
        .decimal(epoch)
        .word(b" digests ")
        .decimal(digests)
        .word(b"\n")
}

// "refused N"
fn refused(refusal: Refusal) -> Text
    ensures { result ≡ text_of (P.line (Err refusal)) }
{
    Text::new()
        .word(b"refused ")
        .decimal(refusal.number() as u32)
        .word(b"\n")
}

// The line of a lookup's answer.
fn line_of(answer: LookupAnswer) -> Text
    ensures { result ≡ text_of (P.line answer) }
{
    match answer {
        Ok(
            AcceptedLookup::Found {
                version,
                epoch,
                digests,
            },
        ) => accepted(version, epoch, digests),
        Ok(AcceptedLookup::NotRegistered { epoch, digests }) => accepted(0, epoch, digests),
        Err(refusal) => refused(refusal),
    }
}

// "It reads from standard input: head 32, name length 1, name, lookup proof. Over 65,536 bytes, or too short for head and name,
// is 1."
pub fn program_line(input: &[u8]) -> Text
    ensures { result ≡ text_of (P.program_line input.now) }
{
    if input.len() < 33 || 65536 < input.len() {
        return refused(Refusal::Input);
    }
    let proof = 33 + input[32] as usize;
    if input.len() < proof {
        return refused(Refusal::Input);
    }
    line_of(check_lookup(&input[..32], &input[33..proof], &input[proof..]))
}
