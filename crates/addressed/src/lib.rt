// Commands of sixteen antennas, decoded from bytes: the antenna's number stands right after the
// command byte (document 02, R-4).
#![tactic(auto)]

ghost use Rattle.std.specs.Prelude.{◌≡◌, ◌<◌, drop, eqb, cond, None};
ghost use Rattle.commands.specs.Command.{step_of};
ghost use Rattle.addressed.specs.Addressed.{without_antenna, addressed_of, antenna_of, command_size};

use commands::{Command, Found, Missing};
use lane::StepArgs;

// A command whose antenna is not there.
fn without_antenna(k: Found) -> Found
    ensures { result ≡ without_antenna k }
{
    match k {
        Ok(Command::Close) => Err(Missing::Short),
        other => other,
    }
}

// What stands at a place of the bytes.
pub fn command_at(s: &[u8], at: usize) -> Found
    ensures { result ≡ addressed_of (drop at s.now) }
{
    let u = s.get(at..).unwrap_or(&[]);
    if u.len() < 2 {
        return without_antenna(commands::decode_at(s, at));
    }
    commands::decode_by(u[0], &u[2..])
}

// The antenna's number, 0 where its byte is not there. No command stands there then, and a refusal names
// no antenna: of an `Option` the caller would make 0 again, to ask that lane for the room of the refusal.
pub fn antenna_at(s: &[u8], at: usize) -> usize
    ensures { (result ≡ antenna_of (drop at s.now)) × (result < 256) }
{
    match s.get(at..) {
        Some([_, i, ..]) => usize::from(*i),
        _ => 0,
    }
}

// How many bytes a command takes, the antenna's counted.
pub fn size_of(k: Command) -> usize
    ensures { result ≡ command_size k }
{
    k.size() + 1
}

// The operands of the step at a place of the bytes, where one for the antenna i stands there. Most
// commands of a stream are steps: a loop over them takes the operands alone.
pub fn step_for(s: &[u8], at: usize, i: usize) -> Option<StepArgs>
    ensures { result ≡ cond (eqb (antenna_of (drop at s.now)) i) (step_of (addressed_of (drop at s.now))) None }
{
    let u = s.get(at..)?;
    if u.len() < 26 || u[0] != 3 || usize::from(u[1]) != i {
        return None;
    }
    Some(commands::step_args(&u[2..]))
}
