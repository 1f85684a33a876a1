// Reading and writing as far as it goes. What a reader gives before it fails is kept, as if it ended there, and what a writer does not take
// is dropped: a program over these functions answers whatever it was given, and ends with nothing said of the streams.
#![tactic(auto)]

ghost use Rattle.std.specs.Prelude.{◌<◌, length, take};
ghost use Rattle.std.specs.Io.KnownBytes.{Consumes, IsAtEnd};
ghost use Rattle.io.specs.Counts.{IsPrefixLen};

use std::io::{Read, Write};

// Reads until the buffer is full, the input ends or a read fails, and answers how many bytes stand at the start of the buffer. It reads no
// byte more.
pub fn read_full<I: Read>(input: &mut I, buffer: &mut [u8]) -> usize
    ensures count { IsPrefixLen result buffer.new }
    ensures bytes { Consumes (I.remaining input.old) (I.remaining input.new) (take result buffer.new) }
{
    let mut done = 0;
    // Not a range: a turn goes on by as many bytes as the read gave.
    while done < buffer.len() {
        match input.read(&mut buffer[done..]) {
            Ok(0) | Err(_) => return done,
            Ok(n) => done += n,
        }
    }
    done
}

// Writes all of the text, or what the output takes of it.
pub fn write_all<O: Write>(output: &mut O, text: &[u8]) {
    let _ = output.write_all(text);
}

#[cfg(test)]
mod tests {
    use super::{read_full, write_all};
    use std::io;
    use std::io::{ErrorKind, Read, Write};

    // A reader that gives a byte at a time, and fails when it has given all.
    #[derive(Drop)]
    struct Trickle<'a>(&'a [u8]);

    impl Read for Trickle<'_> {
        fn read(&mut self, buffer: &mut [u8]) -> io::Result<usize> {
            let Some((first, others)) = self.0.split_first() else {
                return Err(io::Error::from(ErrorKind::TimedOut));
            };
            if buffer.is_empty() {
                return Ok(0);
            }
            buffer[0] = *first;
            self.0 = others;
            Ok(1)
        }
    }

    // A writer that takes a byte at a time, and fails when it has no room left.
    #[derive(Drop)]
    struct Narrow {
        taken: [u8; 5],
        count: usize,
    }

    impl Write for Narrow {
        fn write(&mut self, bytes: &[u8]) -> io::Result<usize> {
            let Some(first) = bytes.first() else {
                return Ok(0);
            };
            if self.count >= 5 {
                return Err(io::Error::from(ErrorKind::StorageFull));
            }
            self.taken[self.count] = *first;
            self.count += 1;
            Ok(1)
        }

        fn flush(&mut self) -> io::Result<()> {
            Ok(())
        }
    }

    #[test]
    fn reads_no_more_than_fits(rt: HostRuntime) {
        let mut input: &[u8] = b"abc";
        let mut buffer = [b'-'; 2];
        assert_eq!(rt; read_full(&mut input, &mut buffer), 2);
        assert_eq!(rt; buffer, *b"ab");
        assert_eq!(rt; read_full(&mut input, &mut buffer), 1);
        assert_eq!(rt; buffer, *b"cb");
        assert_eq!(rt; read_full(&mut input, &mut buffer), 0);
    }

    #[test]
    fn keeps_what_came_before_a_failure(rt: HostRuntime) {
        let mut input = Trickle(b"abc");
        let mut buffer = [b'-'; 2];
        assert_eq!(rt; read_full(&mut input, &mut buffer), 2);
        assert_eq!(rt; buffer, *b"ab");
        assert_eq!(rt; read_full(&mut input, &mut buffer), 1);
        assert_eq!(rt; buffer, *b"cb");
        assert_eq!(rt; read_full(&mut input, &mut buffer), 0);
    }

    #[test]
    fn writes_until_a_failure(rt: HostRuntime) {
        let mut output = Narrow {
            taken: [b'-'; 5],
            count: 0,
        };
        write_all(&mut output, b"abc");
        assert_eq!(rt; output.count, 3);
        assert_eq!(rt; output.taken, *b"abc--");
        write_all(&mut output, b"defg");
        assert_eq!(rt; output.taken, *b"abcde");
    }
}
