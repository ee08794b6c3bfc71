// What tests link, and nothing else does: the arithmetic leaves by number and bit pattern, and the pulse buffers as a list of
// commands leaves them.
#![tactic(auto)]

ghost use Rattle.std.specs.Prelude.{◌≡◌, Ok, ◌%◌, ◌^◌};
ghost use Rattle.std.specs.Float.{binary32};
ghost use Rattle.std.specs.Float.Ieee.{to_bits};
ghost use Rattle.calls.specs.Turn.{Called, called};
ghost use Rattle.exports.specs.Leaf.{single, singles, doubles, numbers, leaf_at, leaf_of};
ghost use Rattle.exports.specs.Left.{LeftWhole, LeftWithin};

use commands::Command;
use lane::{Answer, Lane};

// ---- the leaves

// The leaves stay numbers: `leaf` is called from C and Rust by the number, and any other number has the answer 0.

// The lower half of x: a u32, or the pattern of an f32. Here `as` is proved to lose no bits, so the half is taken before it.
fn low(x: u64) -> u32
    ensures { result ≡ x % 2 ^ 32 }
{
    (x % 0x1_0000_0000) as u32
}

// The f32 whose pattern is the lower half of x.
fn single_at(x: u64) -> f32
    ensures { result ≡ single x }
{
    ieee::f32_of_bits(low(x))
}

// The pattern of an f32, in the lower half.
fn bits_of(x: f32) -> u64
    ensures { result ≡ to_bits binary32 x }
{
    u64::from(ieee::bits_of_f32(x))
}

// The leaves of f32 operands, by number.
fn of_singles(op: u32, a: f32, b: f32, c: f32) -> u64
    ensures { result ≡ leaf_at (singles a b c) op }
{
    match op {
        0 => ieee::bits_of_f64(ieee::widen(a)),
        1 => bits_of(arith::midpoint(a, b)),
        2 => bits_of(arith::flush_denormal(a)),
        3 => bits_of(arith::max(a, b)),
        4 => bits_of(arith::min(a, b)),
        5 => ieee::bits_of_f64(arith::cross(a, b, c)),
        6 => bits_of(arith::atan2_fast(a, b)),
        7 => bits_of(arith::a_gain(a)),
        _ => 0,
    }
}

// The leaves of f64 operands, by number.
fn of_doubles(op: u32, a: f64, b: f64) -> u64
    ensures { result ≡ leaf_at (doubles a b) op }
{
    match op {
        0 => ieee::bits_of_f64(ieee::round(a)),
        1 => bits_of(ieee::narrow(a)),
        2 => u64::from(std::num::saturating_f64_to_u32(a)),
        3 => std::num::saturating_f64_to_u64(a),
        4 => u64::from(arith::whole(a)),
        5 => arith::step_of(a),
        6 => u64::from(arith::width(a, b).0),
        7 => u64::from(arith::fsk_width(a, b).0),
        8 => u64::from(arith::run_fix(a).0),
        _ => 0,
    }
}

// The leaves of a whole number, by number; the f64 is an edge's part of a step.
fn of_numbers(op: u32, n: u64, frac: f64) -> u64
    ensures { result ≡ leaf_at (numbers n frac) op }
{
    match op {
        0 => bits_of(std::num::nearest_u32_to_f32(low(n))),
        1 => ieee::bits_of_f64(std::num::nearest_u64_to_f64(n)),
        2 => u64::from(arith::lead_len(low(n))),
        3 => ieee::bits_of_f64(arith::edge(n, frac)),
        _ => 0,
    }
}

// The leaf of the number op on operands by bit pattern; 0 where there is none. The upper digit of op, to the base 16, says what the
// operands are: f32, f64 or a whole number.
#[unsafe(no_mangle)]
#[tactic(auto, unfolding(crate::specs::Leaf::leaf_of))]
pub extern "C" fn leaf(op: u32, x: u64, y: u64, z: u64) -> u64
    ensures { result ≡ leaf_of op x y z }
{
    let n = op % 16;
    match op / 16 {
        0 => of_singles(n, single_at(x), single_at(y), single_at(z)),
        1 => of_doubles(n, ieee::f64_of_bits(x), ieee::f64_of_bits(y)),
        2 => of_numbers(n, x, ieee::f64_of_bits(y)),
        _ => 0,
    }
}

// ---- the buffers

// Makes the calls of the commands on the lane that never had settings, with both buffers and room for
// the lines lent, until the stream ends or the room does. Answers how many bytes the calls took.
#[unsafe(no_mangle)]
pub extern "C" fn lane_buffers(
    commands: &[u8],
    ook: &mut [u32],
    fsk: &mut [u32],
    text: &mut [u8],
) -> usize
    ensures { LeftWithin commands.now result ook.old fsk.old ook.new fsk.new text.new }
{
    let (_, r) = calls::block(lane::new_lane(), commands, true, ook, fsk, text);
    r.used
}

// The lane's answer to a command, a step's by the entry that is lent the lane.
fn call(l: Lane, k: Command, ook: &mut [u32], fsk: &mut [u32]) -> Answer
    ensures { ◌≡◌ {A = Called} (result, ook.new, fsk.new) (called (l, ook.old, fsk.old) (Ok k)) }
{
    match k {
        Command::Step(s) => lent::step_by_lending(l, s, ook, fsk),
        _ => calls::call(l, Ok(k), ook, fsk),
    }
}

// As `lane_buffers`, with no lines, and each step by the entry that is lent the lane. Each command goes on by its own length and
// what is no command ends the loop, so there is no index or part of one size for a `for` to go through.
#[unsafe(no_mangle)]
pub extern "C" fn lane_buffers_lent(commands: &[u8], ook: &mut [u32], fsk: &mut [u32]) -> usize
    ensures { LeftWhole commands.now result ook.old fsk.old ook.new fsk.new }
{
    let mut l = lane::new_lane();
    let mut used = 0;
    while let Ok(k) = commands::decode_at(commands, used) {
        l = call(l, k, ook, fsk).lane;
        used += k.size();
    }
    used
}
