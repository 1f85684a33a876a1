// Reading a request from the input, field by field. The first field that is not readable ends the reading: a call hands its error on, and
// what is left of the request is skipped.
ghost use Rattle.std.specs.Prelude.{◌≡◌, ◌+◌, ◌≤◌, eqb, length, take, drop, ℕ, List, is_ok, IfOk, OnOk, MatchResult};
ghost use Rattle.std.specs.Io.KnownBytes.{Consumes};
ghost use Rattle.wire.specs.Took.{After, Took, Within, Framed, Opened};

use crate::{Request, Unreadable};
use std::io::Read;
use streams::read_full;

// Fills the buffer, where the input has the bytes.
fn fill<I: Read>(input: &mut I, buffer: &mut [u8]) -> Result<(), Unreadable>
    ensures some { (bytes : List ℕ) × (length bytes ≤ length buffer.old) × Consumes (I.remaining input.old) (I.remaining input.new) bytes }
    ensures all { OnOk result (Consumes (I.remaining input.old) (I.remaining input.new) buffer.new) }
{
    let most = buffer.len();
    if read_full(input, buffer) < most {
        return Err(Unreadable);
    }
    Ok(())
}

// Begins the next request, if there is one: four bytes that say how many follow, and the call's number. One that is cut short, and one with
// no byte for the call's number, is not readable, and nothing is left of it.
pub fn next_request<I: Read>(input: &mut I) -> Result<Option<(u8, Request)>, Unreadable>
    ensures { Opened (I.remaining input.old) (I.remaining input.new) result }
{
    let mut size = [0u8; 4];
    let got = read_full(input, &mut size);
    if got == 0 {
        return Ok(None);
    }
    let n = words::read32(&size, 0) as usize;
    if got < 4 || n == 0 {
        return Err(Unreadable);
    }
    let mut call = [0u8; 1];
    fill(input, &mut call)?;
    Ok(Some((call[0], Request { left: n - 1 })))
}

impl Request {
    // Fills the buffer from what is left of the request. Where the input ends in it nothing is left.
    fn take<I: Read>(&mut self, input: &mut I, buffer: &mut [u8]) -> Result<(), Unreadable>
        ensures after { After self.old self.new result (length buffer.old) }
        ensures within { Within (I.remaining input.old) (I.remaining input.new) self.old self.new }
        ensures bytes { OnOk result (Consumes (I.remaining input.old) (I.remaining input.new) buffer.new) }
    {
        let Some(left) = self.left.checked_sub(buffer.len()) else {
            return Err(Unreadable);
        };
        self.left = 0;
        fill(input, buffer)?;
        self.left = left;
        Ok(())
    }

    // Reads a field, four bytes that say how many follow and those, straight into the buffer, and answers how many. It is not readable where
    // it is longer than the buffer or than its request, or where the input ends in it; in the last case nothing is left to read either.
    pub fn read_field<I: Read>(
        &mut self,
        input: &mut I,
        buffer: &mut [u8],
    ) -> Result<usize, Unreadable>
        ensures took { Took self.old self.new result buffer.new }
        ensures within { Within (I.remaining input.old) (I.remaining input.new) self.old self.new }
        ensures bytes { IfOk result (λ n. Framed (I.remaining input.old) (I.remaining input.new) n (take n buffer.new)) }
    {
        let mut size = [0u8; 4];
        self.take(input, &mut size)?;
        let n = words::read32(&size, 0) as usize;
        if buffer.len() < n {
            return Err(Unreadable);
        }
        self.take(input, &mut buffer[..n])?;
        Ok(n)
    }

    // Reads a field of up to so many bytes into the space, from place `at` on.
    pub fn read_at<I: Read>(
        &mut self,
        input: &mut I,
        space: &mut [u8],
        at: usize,
        most: usize,
    ) -> Result<usize, Unreadable>
        requires { at + most ≤ length space.old }
        ensures took { MatchResult result (λ n. (n ≤ most) × (at + n ≤ length space.new) × (self.new.left + (4 + n) ≡ self.old.left)) (λ _. self.new.left ≤ self.old.left) }
        ensures within { Within (I.remaining input.old) (I.remaining input.new) self.old self.new }
        ensures bytes { IfOk result (λ n. Framed (I.remaining input.old) (I.remaining input.new) n (take n (drop at space.new))) }
    {
        self.read_field(input, &mut space[at..at + most])
    }

    // Reads a field of N bytes: one of another length is not readable.
    pub fn read_array<I: Read, const N: usize>(
        &mut self,
        input: &mut I,
    ) -> Result<[u8; N], Unreadable>
        ensures after { After self.old self.new result (4 + N) }
        ensures within { Within (I.remaining input.old) (I.remaining input.new) self.old self.new }
        ensures bytes { IfOk result (λ bytes. Framed (I.remaining input.old) (I.remaining input.new) N bytes) }
    {
        let mut bytes = [0u8; N];
        if self.read_field(input, &mut bytes)? < N {
            return Err(Unreadable);
        }
        Ok(bytes)
    }

    // A request that was read whole has nothing left.
    pub fn end(&self) -> Result<(), Unreadable>
        ensures { is_ok result ≡ eqb self.now.left 0 }
    {
        if self.left != 0 {
            return Err(Unreadable);
        }
        Ok(())
    }

    // Reads past what is left of the request, and answers how much of it the input did not have.
    pub fn skip_rest<I: Read>(self, input: &mut I) -> usize
        ensures least { result ≤ self.left }
        ensures bytes { (bytes : List ℕ) × (length bytes + result ≡ self.left) × Consumes (I.remaining input.old) (I.remaining input.new) bytes }
    {
        let mut left = self.left;
        // Not a range: a turn skips as many bytes as the input gives.
        while 0 < left {
            let n = skip_some(input, left);
            if n == 0 {
                return left;
            }
            left -= n;
        }
        0
    }
}

// Reads up to 4,096 of the bytes that are left, and answers how many; 0 where the input has ended.
fn skip_some<I: Read>(input: &mut I, left: usize) -> usize
    ensures least { result ≤ left }
    ensures bytes { (bytes : List ℕ) × (length bytes ≡ result) × Consumes (I.remaining input.old) (I.remaining input.new) bytes }
{
    let mut space = io::buffer();
    let most = left.min(4096);
    read_full(input, &mut space[..most])
}
