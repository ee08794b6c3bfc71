// The program of sixteen antennas (document 02, R-4): commands with an antenna's number from standard
// input, as many as a read brings, and the lines of their calls to standard output before the next
// read. What is printed is that of `sixteen::Antennas`, and the bytes are moved by `pump::run`.
#![tactic(auto)]

ghost use Rattle.std.specs.Prelude.{◌≡◌, is_ok};
ghost use Rattle.stream.specs.Machine.{printed_of};
ghost use Rattle.input.specs.Known.{Writes};
ghost use Rattle.sixteen.specs.Sixteen.{machine, at_first};
ghost use Rattle.antennas.specs.Ends.{Ends};

use input::Failed;
use sixteen::Antennas;
use std::io::{Read, Write};
use std::process::ExitCode;

// The lines of all that the reader brings, from lanes that never had settings.
fn run<R: Read, W: Write>(
    from: &mut R,
    to: &mut W,
    buf: &mut [u8],
    text: &mut [u8],
) -> Result<(), Failed>
    ensures ends { Ends (is_ok result) }
    ensures writes { Writes (printed_of machine at_first) (R.remaining from.old) (W.contents to.old) (W.contents to.new) (is_ok result) }
{
    let mut antennas = Antennas::new();
    pump::run(from, to, &mut antennas, buf, text)
}

// The text has room for the 172,463 bytes that one call may take, and is written once for each read
// where the calls print less than the rest of it. A run that fails ends with a status that is not zero.
// It begins as `listing` does, and why neither shares it is said there.
fn main(rt: HostRuntime) -> ExitCode {
    let mut buf = [0u8; 65536];
    let mut text = [0u8; 262144];
    let mut from = rt.stdin();
    let mut to = rt.stdout();
    let done = run(&mut from, &mut to, &mut buf, &mut text);
    let mut err = rt.stderr();
    input::status("antennas", done, &mut err)
}
