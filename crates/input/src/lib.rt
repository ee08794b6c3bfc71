// A live input as a program takes it, and its lines as it writes them. No contract says which bytes a
// read of a pipe brings, nor which a write takes: only where they come to stand, and when none come. Of a
// reader and a writer in memory it says which.
#![tactic(auto)]

ghost use Rattle.std.specs.Prelude.{◌≡◌, ◌≤◌, [], length, take, drop, is_ok, MatchResult};
ghost use Rattle.std.specs.Process.{exit_status};
ghost use Rattle.input.specs.Input.{Came, Quiet};
ghost use Rattle.input.specs.Known.{Took, Gave};

use std::fmt::{self, Display, Formatter};
use std::io::{self, Cursor, ErrorKind, Read, Write};
use std::process::ExitCode;
use std::str;

#[derive(Clone, Copy, Debug, PartialEq, Eq)]
pub struct Input {
    pub came: usize,
    // Whether the input has ended: nothing is read after that.
    pub last: bool,
}

// Why a program stopped before its stream was over.
#[derive(Debug, Drop)]
pub enum Failed {
    Read(io::Error),
    Write(io::Error),
    // The input had not ended after more reads than any run makes.
    Endless,
}

// The system's words for a failure.
#[derive(Drop)]
struct Why(io::Error);

impl Display for Why {
    fn fmt<W: fmt::Write>(&self, f: &mut Formatter<W>) -> fmt::Result {
        let Why(why) = self;
        let mut said = Cursor::new([0u8; 128]);
        let _ = write!(said, "{why}");
        f.write_str(words(&said.into_inner()))
    }
}

// Which program failed, and at what: in one write, so that a writer which takes no more has no half of it.
#[derive(Drop)]
struct What<'a>(&'a str, &'a str);

impl<'a> Display for What<'a> {
    fn fmt<W: fmt::Write>(&self, f: &mut Formatter<W>) -> fmt::Result {
        let What(program, what) = self;
        let mut said = Cursor::new([0u8; 128]);
        let fits = write!(said, "{program}: {what}").is_ok();
        let end = said.position() as usize;
        let room = said.into_inner();
        match str::from_utf8(room.get(..end).unwrap_or(&[])) {
            Ok(all) if fits => f.write_str(all),
            _ => write!(f, "{program}: {what}"),
        }
    }
}

// The text up to its first zero, and without the number that std puts after the system's words.
fn words(text: &[u8]) -> &str {
    let end = text.iter().position(|b| *b == 0).unwrap_or(text.len());
    match str::from_utf8(&text[..end]) {
        Ok(all) => match all.split_once(" (os error ") {
            Some((before, _)) => before,
            None => all,
        },
        Err(_) => "",
    }
}

// The status of a program: a read or a write that failed is said on standard error, `err`, after the
// program's name. Of an input with no end there is nothing to say.
pub fn status<E: Write>(program: &str, done: Result<(), Failed>, err: &mut E) -> ExitCode
    ensures { MatchResult done (λ _. exit_status result ≡ 0) (λ _. exit_status result ≡ 1) }
{
    let (what, why) = match done {
        Ok(()) => return ExitCode::SUCCESS,
        Err(Failed::Endless) => return ExitCode::FAILURE,
        Err(Failed::Read(why)) => (What(program, "read"), Why(why)),
        Err(Failed::Write(why)) => (What(program, "write"), Why(why)),
    };
    let _ = writeln!(err, "{what}: {why}");
    ExitCode::FAILURE
}

// The bytes that come next, to the place `have` of the buffer. Nothing is read where the input has
// ended, where bytes that are there may still be answered (`full`), or where the buffer has no room.
pub fn read_more<R: Read>(
    from: &mut R,
    buf: &mut [u8],
    have: usize,
    last: bool,
    full: bool,
) -> Result<Input, Failed>
    requires { have ≤ length buf.old }
    ensures came { MatchResult result (λ i. Came buf.old have i.came buf.new × Quiet last full i) (λ _. Came buf.old have 0 buf.new) }
    ensures took { MatchResult result (λ i. Took (R.remaining from.old) (R.remaining from.new) last (take i.came (drop have buf.new)) i.last) (λ _. Took (R.remaining from.old) (R.remaining from.new) last [] last) }
{
    if last | full | (have == buf.len()) {
        return Ok(Input { came: 0, last });
    }
    let came = from.read(&mut buf[have..]).map_err(Failed::Read)?;
    Ok(Input {
        came,
        last: came == 0,
    })
}

// All of the text, or the first failure: a write that takes nothing is one, and none is tried again. Each write takes as many
// bytes as it likes, so there is no index for a `for` to count; std's `write_all` would try an interrupted write again.
fn write_text<W: Write>(to: &mut W, text: &[u8]) -> io::Result<()>
    ensures { Gave (W.contents to.old) (W.contents to.new) text.now (is_ok result) }
{
    let mut done = 0;
    while done < text.len() {
        let n = to.write(&text[done..])?;
        if n == 0 {
            return Err(io::Error::from(ErrorKind::WriteZero));
        }
        done += n;
    }
    Ok(())
}

// Writes the lines.
pub fn put<W: Write>(to: &mut W, text: &[u8]) -> Result<(), Failed>
    ensures { Gave (W.contents to.old) (W.contents to.new) text.now (is_ok result) }
{
    write_text(to, text).map_err(Failed::Write)
}

#[cfg(test)]
mod tests {
    use super::*;
    use std::test::Fail;

    // A reader and a writer that fail with the system's error of this number.
    #[derive(Drop)]
    struct Failing(i32);

    impl Read for Failing {
        fn read(&mut self, _buf: &mut [u8]) -> io::Result<usize> {
            Err(io::Error::from_raw_os_error(self.0))
        }
    }

    impl Write for Failing {
        fn write(&mut self, _buf: &[u8]) -> io::Result<usize> {
            Err(io::Error::from_raw_os_error(self.0))
        }

        fn flush(&mut self) -> io::Result<()> {
            Ok(())
        }
    }

    #[test]
    fn reads_after_what_is_there(rt: HostRuntime) -> Result<(), Fail> {
        let mut from: &[u8] = b"abc";
        let mut buf = *b"....";
        let first = read_more(&mut from, &mut buf[..2], 1, false, false);
        assert!(rt;
            matches!(
                first,
                Ok(Input {
                    came: 1,
                    last: false
                })
            )
        );
        let more = read_more(&mut from, &mut buf, 2, false, false);
        assert!(rt;
            matches!(
                more,
                Ok(Input {
                    came: 2,
                    last: false
                })
            )
        );
        assert_eq!(rt; &buf[..], b".abc".as_slice());
        let end = read_more(&mut from, &mut buf, 0, false, false);
        assert!(rt;
            matches!(
                end,
                Ok(Input {
                    came: 0,
                    last: true
                })
            )
        );
        Ok(())
    }

    // A writer that takes all, and keeps how many bytes each of its first writes had.
    #[derive(Drop)]
    struct Pieces {
        lengths: [usize; 8],
        count: usize,
    }

    impl Write for Pieces {
        fn write(&mut self, buf: &[u8]) -> io::Result<usize> {
            if self.count < 8 {
                self.lengths[self.count] = buf.len();
                self.count += 1;
            }
            Ok(buf.len())
        }

        fn flush(&mut self) -> io::Result<()> {
            Ok(())
        }
    }

    #[test]
    fn a_failure_is_said_in_four_writes(rt: HostRuntime) -> Result<(), Fail> {
        let mut err = Pieces {
            lengths: [0; 8],
            count: 0,
        };
        let written = put(&mut Failing(28), b"lines");
        let _ = status("t", written, &mut err);
        // "t: write", ": ", "No space left on device" and the line feed.
        assert_eq!(rt; err.lengths, [8, 2, 23, 1, 0, 0, 0, 0]);
        Ok(())
    }

    #[test]
    fn a_failure_is_said_once(rt: HostRuntime) -> Result<(), Fail> {
        let mut err = Vec::new(rt.alloc());
        let mut buf = *b"....";
        let read = read_more(&mut Failing(21), &mut buf, 1, false, false);
        assert!(rt; read.is_err());
        let _ = status("t", read.map(|_| ()), &mut err);
        assert_eq!(rt; err.as_slice(), b"t: read: Is a directory\n".as_slice());
        err.clear();
        let written = put(&mut Failing(28), b"lines");
        assert!(rt; written.is_err());
        let _ = status("t", written, &mut err);
        assert_eq!(rt;
            err.as_slice(),
            b"t: write: No space left on device\n".as_slice()
        );
        Ok(())
    }
}
