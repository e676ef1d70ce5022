// Reading for the programs: a list is filled as far as the input goes.
#![tactic(auto)]

ghost use Rattle.std.specs.Prelude.{◌≤◌, length, take};
ghost use Rattle.std.specs.Io.KnownBytes.{Consumes};

use std::io::Read;

// Reads until `buf` is full, the input ends or a read fails, and returns how many bytes stand at its start then. A
// read that a signal interrupts counts as one that failed.
pub fn read_full<R: Read>(input: &mut R, buf: &mut [u8]) -> usize
    ensures len { result ≤ length buf.new }
    ensures bytes { Consumes (R.remaining input.old) (R.remaining input.new) (take result buf.new) }
{
    let mut done = 0;
    while done < buf.len() {
        match input.read(&mut buf[done..]) {
            Ok(0) | Err(_) => return done,
            Ok(n) => done += n,
        }
    }
    done
}

#[cfg(test)]
mod tests {
    use super::*;
    use std::io;
    use std::io::{Error, ErrorKind};
    use std::test::Fail;

    // Gives a byte at each of three reads, and fails at the next.
    #[derive(Drop)]
    struct Failing {
        given: u8,
    }

    impl Read for Failing {
        fn read(&mut self, buf: &mut [u8]) -> io::Result<usize> {
            if self.given >= 3 {
                return Err(Error::from(ErrorKind::ConnectionReset));
            }
            if buf.is_empty() {
                return Ok(0);
            }
            self.given += 1;
            buf[0] = self.given;
            Ok(1)
        }
    }

    #[test]
    fn a_read_that_fails_counts_as_the_end(rt: HostRuntime) -> Result<(), Fail> {
        let mut buf = [0u8; 5];
        assert_eq!(rt; read_full(&mut Failing { given: 0 }, &mut buf), 3);
        assert_eq!(rt; buf, [1, 2, 3, 0, 0]);
        Ok(())
    }

    #[test]
    fn what_finds_no_place_stays(rt: HostRuntime) -> Result<(), Fail> {
        let text = [7u8, 8, 9];
        let mut input = &text[..];
        let mut buf = [0u8; 2];
        assert_eq!(rt; read_full(&mut input, &mut buf), 2);
        assert_eq!(rt; buf, [7, 8]);
        assert_eq!(rt; read_full(&mut input, &mut buf), 1);
        assert_eq!(rt; buf, [9, 8]);
        Ok(())
    }
}
