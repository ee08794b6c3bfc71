// The commands of the listing program, decoded from bytes (document 01, "Commands", and its
// refusals 1 and 2; document 02 has 04 and 05).
#![tactic(auto)]

ghost use Rattle.std.specs.Prelude.{◌≡◌, ◌∷◌, ◌+◌, ◌≤◌, length, drop};
ghost use Rattle.commands.specs.Command.{pair_at, history_of, settings_of, carry_settings_of, begin_args_of, step_args_of, decoded, command_size, step_of};

use arith::C32;
use lane::{BeginArgs, History, StepArgs};
use shared::Settings;

#[derive(Clone, Copy)]
pub enum Command {
    // 01
    Open(Settings),
    // 04, which has carry after the operands of 01.
    OpenCarry(Settings),
    // 02
    Begin(BeginArgs),
    // 03
    Step(StepArgs),
    // 05, which has no operands.
    Close,
}

// Why no command stands at a place of a stream.
#[derive(Clone, Copy, PartialEq, Eq)]
pub enum Missing {
    // Nothing is left.
    End,
    // Refusal 1: the command byte is none of the listed ones.
    Unknown,
    // Refusal 2: fewer operand bytes are left than the command has.
    Short,
}

// What stands at a place of a stream.
pub type Found = Result<Command, Missing>;

impl Command {
    // How many bytes it takes, the command byte counted.
    pub fn size(self) -> usize
        ensures { result ≡ command_size self }
    {
        match self {
            Command::Open(_) => 38,
            Command::OpenCarry(_) => 39,
            Command::Begin(_) => 61,
            Command::Step(_) => 25,
            Command::Close => 1,
        }
    }
}

// ---- operands

// Each reads its numbers at the places that document 01 lists, as its definition does: cut off one by one
// with `split_first_chunk`, the operands would stand here without their places.

fn pair_at(o: &[u8], i: usize) -> C32
    requires { i + 8 ≤ length o.now }
    ensures { result ≡ pair_at o.now i }
{
    C32 {
        re: words::f32_at(o, i),
        im: words::f32_at(o, i + 4),
    }
}

#[tactic(auto, unfolding(crate::specs::Command::settings_of))]
fn settings_of(o: &[u8]) -> Settings
    requires { 37 ≤ length o.now }
    ensures { result ≡ settings_of o.now }
{
    Settings {
        mode: u32::from(o[0]),
        min_steps: words::u32_at(o, 1),
        gap_steps: words::u32_at(o, 5),
        pre_timeout: words::u32_at(o, 9),
        long_steps: words::u32_at(o, 13),
        max_pulses: words::u32_at(o, 17),
        alpha: words::f32_at(o, 21),
        gap_ratio: words::f32_at(o, 25),
        fsk_delta: words::f32_at(o, 29),
        fsk_split: words::f32_at(o, 33),
        carry: 0,
    }
}

#[tactic(auto, unfolding(crate::specs::Command::carry_settings_of))]
fn carry_settings_of(o: &[u8]) -> Settings
    requires { 38 ≤ length o.now }
    ensures { result ≡ carry_settings_of o.now }
{
    Settings {
        carry: u32::from(o[37]),
        ..settings_of(o)
    }
}

#[tactic(auto, unfolding(crate::specs::Command::history_of))]
fn history_of(o: &[u8]) -> History
    requires { 60 ≤ length o.now }
    ensures { result ≡ history_of o.now }
{
    History {
        e1: words::f32_at(o, 32),
        e2: words::f32_at(o, 36),
        e3: words::f32_at(o, 40),
        e4: words::f32_at(o, 44),
        e5: words::f32_at(o, 48),
        e6: words::f32_at(o, 52),
        e7: words::f32_at(o, 56),
    }
}

#[tactic(auto, unfolding(crate::specs::Command::begin_args_of))]
fn begin_args(o: &[u8]) -> BeginArgs
    requires { 60 ≤ length o.now }
    ensures { result ≡ begin_args_of o.now }
{
    BeginArgs {
        index: words::u64_at(o, 0),
        factor: words::f32_at(o, 8),
        envelope: words::f32_at(o, 12),
        x: pair_at(o, 16),
        before: pair_at(o, 24),
        history: history_of(o),
    }
}

#[tactic(auto, unfolding(crate::specs::Command::step_args_of))]
pub fn step_args(o: &[u8]) -> StepArgs
    requires { 24 ≤ length o.now }
    ensures { result ≡ step_args_of o.now }
{
    StepArgs {
        index: words::u64_at(o, 0),
        noise: words::f32_at(o, 8),
        envelope: words::f32_at(o, 12),
        x: pair_at(o, 16),
    }
}

// ---- commands

// A command by its command byte and the bytes after that one.
pub fn decode_by(b: u8, o: &[u8]) -> Found
    ensures { result ≡ decoded (b ∷ o.now) }
{
    match b {
        1 if o.len() >= 37 => Ok(Command::Open(settings_of(o))),
        2 if o.len() >= 60 => Ok(Command::Begin(begin_args(o))),
        3 if o.len() >= 24 => Ok(Command::Step(step_args(o))),
        4 if o.len() >= 38 => Ok(Command::OpenCarry(carry_settings_of(o))),
        5 => Ok(Command::Close),
        1..=4 => Err(Missing::Short),
        _ => Err(Missing::Unknown),
    }
}

// What stands at a place of the bytes.
pub fn decode_at(s: &[u8], at: usize) -> Found
    ensures { result ≡ decoded (drop at s.now) }
{
    let u = s.get(at..).ok_or(Missing::End)?;
    let (b, o) = u.split_first().ok_or(Missing::End)?;
    decode_by(*b, o)
}

// The operands of the step at a place of the bytes, where one stands there. Most commands of a stream
// are steps: a loop over them takes the operands alone. By `Some([3, o @ ..]) if o.len() >= 24` a call takes
// 2.7 to 3.0 % more.
pub fn step_at(s: &[u8], at: usize) -> Option<StepArgs>
    ensures { result ≡ step_of (decoded (drop at s.now)) }
{
    let u = s.get(at..)?;
    if u.len() < 25 || u[0] != 3 {
        return None;
    }
    Some(step_args(&u[1..]))
}
