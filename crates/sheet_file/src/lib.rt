// Reads a whole file into a lent run of bytes. No `Vec`: no more is read than the run holds and one byte, so that a file of any length is refused without
// a heap.
#![tactic(auto)]

ghost use Rattle.std.specs.Prelude.{◌≡◌, ◌≤◌, length, take, IfOk, IfSome};
ghost use Rattle.std.specs.Io.{ReadsAtMost};
ghost use Rattle.std.specs.Io.KnownBytes.{Consumes};
ghost use Rattle.std.specs.Result.{result_ok};
ghost use Rattle.sheet_file.specs.Counted.{counted};

use std::io::{ErrorKind, Read};
use std::rt::Files;
use std::{fs, io};

// How many of n bytes that were read count, by what one further read answered. 0 is the end of the file: all do. A byte more or a failure
// means that they are not the whole file: none does.
pub fn counted(n: usize, rest: io::Result<usize>) -> io::Result<usize>
    ensures { result_ok result ≡ counted n rest }
{
    match rest? {
        0 => Ok(n),
        _ => Err(io::Error::from(ErrorKind::FileTooLarge)),
    }
}

// Reads until `bytes` is full, the reader ends or a read fails: whether the end is reached is for one further read to say. Answers how many bytes it put
// at the front of `bytes`. A `while`: each read gives as much as it likes.
fn read_full<R: Read>(reader: &mut R, bytes: &mut [u8]) -> usize
    ensures in_bounds { (result ≤ length bytes.new) × (result ≡ length (take result bytes.new)) }
    ensures given { Consumes (R.remaining reader.old) (R.remaining reader.new) (take result bytes.new) }
{
    let mut done = 0;
    while done < bytes.len() {
        match reader.read(&mut bytes[done..]) {
            Ok(0) | Err(_) => break,
            Ok(n) => done += n,
        }
    }
    done
}

// A reader's bytes at the front of `bytes`; answers how many there are. It fails where they cannot be read to their end, or are more than `bytes` holds.
pub fn read_whole<R: Read>(reader: &mut R, bytes: &mut [u8]) -> io::Result<usize>
    ensures in_bounds { ReadsAtMost result bytes.new }
    ensures whole { IfOk result (λ n. IfSome (R.remaining reader.old) (λ all. take n bytes.new ≡ all)) }
{
    let n = read_full(reader, bytes);
    counted(n, reader.read(&mut [0u8; 1]))
}

// The file's bytes at the front of `bytes`; answers how many there are. It fails where the file cannot be read to its end, or is longer than `bytes`.
// The path is bytes, so that a caller may hand any: a `&str` would ask that they are UTF-8. The library opens a path by its text, so a path that is
// no UTF-8 is of no file.
pub fn read_file<R: Files>(rt: &R, path: &[u8], bytes: &mut [u8]) -> io::Result<usize>
    ensures { ReadsAtMost result bytes.new }
{
    let path = str::from_utf8(path).map_err(|_| ErrorKind::NotFound)?;
    let mut file = fs::open(rt, path)?;
    read_whole(&mut file, bytes)
}

#[cfg(test)]
mod tests {
    use super::*;

    // How many of the bytes `abc` count in a run of `room` bytes.
    fn counted_of_three(room: &mut [u8]) -> usize {
        let mut reader: &[u8] = b"abc";
        read_whole(&mut reader, room).unwrap_or(0)
    }

    #[test]
    fn counts_what_fits(rt: HostRuntime) {
        assert_eq!(rt; counted_of_three(&mut [0u8; 4]), 3);
        assert_eq!(rt; counted_of_three(&mut [0u8; 3]), 3);
        assert_eq!(rt; counted_of_three(&mut [0u8; 2]), 0);
    }

    // Gives one byte, and then fails.
    #[derive(Drop)]
    struct Failing {
        given: bool,
    }

    impl Read for Failing {
        fn read(&mut self, buf: &mut [u8]) -> io::Result<usize> {
            if self.given || buf.is_empty() {
                return Err(io::Error::from(ErrorKind::Other));
            }
            self.given = true;
            buf[0] = 1;
            Ok(1)
        }
    }

    #[test]
    fn counts_nothing_where_a_later_read_fails(rt: HostRuntime) {
        let mut reader = Failing { given: false };
        assert_eq!(rt; read_whole(&mut reader, &mut [0u8; 4]).unwrap_or(0), 0);
        let mut reader = Failing { given: false };
        assert_eq!(rt; read_whole(&mut reader, &mut [0u8; 1]).unwrap_or(0), 0);
    }

    // Gives one byte, fails once, and is then at its end.
    #[derive(Drop)]
    struct FailingOnce {
        reads: u8,
    }

    impl Read for FailingOnce {
        fn read(&mut self, buf: &mut [u8]) -> io::Result<usize> {
            let reads = self.reads;
            if reads > 1 || buf.is_empty() {
                return Ok(0);
            }
            self.reads = reads + 1;
            if reads == 1 {
                return Err(io::Error::from(ErrorKind::Other));
            }
            buf[0] = 1;
            Ok(1)
        }
    }

    #[test]
    fn counts_all_where_the_read_after_a_failure_finds_the_end(rt: HostRuntime) {
        let mut reader = FailingOnce { reads: 0 };
        assert_eq!(rt; read_whole(&mut reader, &mut [0u8; 4]).unwrap_or(0), 1);
        let mut reader = FailingOnce { reads: 0 };
        assert_eq!(rt; read_whole(&mut reader, &mut [0u8; 1]).unwrap_or(0), 0);
    }
}
