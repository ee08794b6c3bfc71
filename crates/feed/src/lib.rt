// The bytes that a program has of its input, fed to it: the block of them, and what no command has
// taken yet moved to the front, where the next bytes follow it.
#![tactic(auto)]

ghost use Rattle.std.specs.Prelude.{◌≤◌, ◌≡◌, length, take, drop};
ghost use Rattle.stream.specs.Feeds.{Feeds};

use stream::{Fed, Station, Stop};

// Moves the bytes from `from` to `end` to the front, and answers how many they are.
pub fn shift(buf: &mut [u8], from: usize, end: usize) -> usize
    requires { (from ≤ end) × (end ≤ length buf.old) }
    ensures { (result ≤ length buf.new) × (take result buf.new ≡ drop from (take end buf.old)) }
{
    buf.copy_within(from..end, 0);
    end - from
}

// The turns of the first `end` bytes of the buffer. `last` says that no byte will come after them.
pub fn feed<S: Station>(
    station: &mut S,
    buf: &mut [u8],
    end: usize,
    last: bool,
    text: &mut [u8],
) -> Fed
    requires { S.is_sound station.old }
    ensures feeds { Feeds S.machine (S.state station.old) (take end buf.old) last result (S.state station.new) buf.new text.new }
    ensures sound { S.is_sound station.new }
    ensures same { S.lent station.new ≡ S.lent station.old }
{
    let n = end.min(buf.len());
    let r = stream::block(station, &buf[..n], last, text);
    let stop = match r.stop {
        Stop::Waiting if last => Stop::Ended,
        stop => stop,
    };
    let left = shift(buf, r.used, n);
    Fed {
        left,
        at: r.at,
        stop,
    }
}
