// The listing program (document 01, "Commands"): commands from standard input, as many as a read
// brings, and the lines of their calls to standard output before the next read. What is printed is
// that of a lane with its buffers (`calls::Lent`), and the bytes are moved by `pump::run`.
#![tactic(auto)]

ghost use Rattle.std.specs.Prelude.{◌≡◌, is_ok};
ghost use Rattle.calls.specs.Stream.{machine, at_first};
ghost use Rattle.stream.specs.Machine.{printed_of};
ghost use Rattle.input.specs.Known.{Writes};
ghost use Rattle.listing.specs.Ends.{Ends};

use calls::Lent;
use input::Failed;
use std::io::{Read, Write};
use std::process::ExitCode;

// The lines of all that the reader brings, from a lane that never had settings, with buffers for 2,048 pairs each.
fn run<R: Read, W: Write>(
    from: &mut R,
    to: &mut W,
    buf: &mut [u8],
    text: &mut [u8],
) -> Result<(), Failed>
    ensures ends { Ends (is_ok result) }
    ensures writes { Writes (printed_of machine at_first) (R.remaining from.old) (W.contents to.old) (W.contents to.new) (is_ok result) }
{
    let mut ook = [0; 4096];
    let mut fsk = [0; 4096];
    let mut station = Lent {
        lane: lane::new_lane(),
        ook: &mut ook,
        fsk: &mut fsk,
    };
    pump::run(from, to, &mut station, buf, text)
}

// The text has room for the 172,400 bytes that one call may take, and is written once for each read
// where the calls print less than the rest of it. A run that fails ends with a status that is not zero.
// `antennas` begins alike: one helper for both would take its `run`, whose contract is of any reader and writer,
// as a closure of four arguments over std's own two, and reads no plainer than these lines.
fn main(rt: HostRuntime) -> ExitCode {
    let mut buf = [0u8; 65536];
    let mut text = [0u8; 262144];
    let mut from = rt.stdin();
    let mut to = rt.stdout();
    let done = run(&mut from, &mut to, &mut buf, &mut text);
    let mut err = rt.stderr();
    input::status("listing", done, &mut err)
}
