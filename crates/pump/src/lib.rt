// A program over a live input: one read, the turns of what is there, and one write, over and over. It only
// moves bytes: what is printed is the station's (crates/stream).
#![tactic(auto)]

ghost use Rattle.std.specs.Prelude.{◌≤◌, ◌≡◌, length, is_ok, MatchResult, true};
ghost use Rattle.stream.specs.Machine.{printed_of};
ghost use Rattle.input.specs.Known.{Writes};
ghost use Rattle.input.specs.Passes.{Carries, Fails, Runs};

use input::Failed;
use std::io::{Read, Write};
use stream::{Fed, Station, Stop};

#[derive(Clone, Copy, Debug, PartialEq, Eq)]
struct Passed {
    // What was fed last: its bytes that no command has taken are at the front of the buffer.
    fed: Fed,
    // Whether the input has ended.
    last: bool,
}

// One read, the turns of what is there, and one write.
fn pass<R: Read, W: Write, S: Station>(
    p: Passed,
    from: &mut R,
    to: &mut W,
    station: &mut S,
    buf: &mut [u8],
    text: &mut [u8],
) -> Result<Passed, Failed>
    requires { (p.fed.left ≤ length buf.old) × S.is_sound station.old }
    ensures sound { S.is_sound station.new }
    ensures same { S.lent station.new ≡ S.lent station.old }
    ensures carries { MatchResult result (λ q. Carries S.machine (S.state station.old) p.fed p.last buf.old (S.state station.new) q.fed q.last buf.new text.new (R.remaining from.old) (R.remaining from.new) (W.contents to.old) (W.contents to.new) true) (λ _. Fails S.machine (S.state station.old) p.fed p.last buf.old (S.state station.new) (R.remaining from.old) (R.remaining from.new) (W.contents to.old) (W.contents to.new)) }
{
    let q = p.fed;
    let i = input::read_more(from, buf, q.left, p.last, q.stop.is_full())?;
    let fed = feed::feed(station, buf, q.left + i.came, i.last, text);
    input::put(to, &text[..fed.at])?;
    Ok(Passed { fed, last: i.last })
}

// Passes until the stream is over, or a read or a write fails. A proved loop has to end, and nothing says
// that the input does: it counts to a number that no run comes to.
pub fn run<R: Read, W: Write, S: Station>(
    from: &mut R,
    to: &mut W,
    station: &mut S,
    buf: &mut [u8],
    text: &mut [u8],
) -> Result<(), Failed>
    requires { S.is_sound station.old }
    ensures runs { Runs S.machine (S.state station.old) (S.state station.new) (is_ok result) }
    ensures writes { Writes (printed_of S.machine (S.state station.old)) (R.remaining from.old) (W.contents to.old) (W.contents to.new) (is_ok result) }
    ensures sound { S.is_sound station.new }
    ensures same { S.lent station.new ≡ S.lent station.old }
{
    let fed = Fed {
        left: 0,
        at: 0,
        stop: Stop::Waiting,
    };
    let mut p = Passed { fed, last: false };
    for _ in 0..u64::MAX {
        p = pass(p, from, to, station, buf, text)?;
        if p.fed.stop.is_over() {
            return Ok(());
        }
    }
    Err(Failed::Endless)
}
