// Prints the table that the square root begins from (document 02, R-7), from its rule and not from the
// table: for i from 256 to 1,023 the largest whole number whose square is at most 64 * i, one number to a line.
#![tactic(auto)]

ghost use Rattle.std.specs.Prelude.{◌+◌, ◌≤◌, ◌<◌, ◌≡◌, length, is_ok};
ghost use Rattle.table.specs.Rule.{rule_of};
ghost use Rattle.lines.specs.Text.{RoomFor, Puts};
ghost use Rattle.input.specs.Known.{Gave};
ghost use Rattle.roots.specs.Text.{line, text_room, printed, Printed};

use input::Failed;
use lines::Text;
use std::io::Write;
use std::process::ExitCode;

// 768 lines of at most 21 bytes.
const ROOM: usize = 768 * 21;

// The number of i.
fn rule(i: u32) -> u64
    requires { i < 1024 }
    ensures { result ≡ rule_of i }
{
    u64::from((64 * i).isqrt())
}

fn put_line(n: u64, text: &mut Text)
    requires { RoomFor 21 text.old }
    ensures { Puts (line n) 21 text.old text.new }
{
    text.put_decimal(n);
    text.put_byte(b'\n');
}

// All 768 lines, at the start of the text.
fn put_lines(text: &mut [u8]) -> usize
    requires { text_room ≤ length text.old }
    ensures { Printed result text.new }
{
    let mut t = Text::new(text, 0);
    for i in 256..1024 {
        put_line(rule(i), &mut t);
    }
    t.at
}

fn run<W: Write>(to: &mut W, text: &mut [u8; ROOM]) -> Result<(), Failed>
    ensures { Gave (W.contents to.old) (W.contents to.new) printed (is_ok result) }
{
    let at = put_lines(text);
    input::put(to, &text[..at])
}

// A run that fails ends with a status that is not zero.
fn main(rt: HostRuntime) -> ExitCode {
    let mut text = [0u8; ROOM];
    let mut to = rt.stdout();
    let done = run(&mut to, &mut text);
    let mut err = rt.stderr();
    input::status("roots", done, &mut err)
}
