// The leaves of the Rust's arithmetic, one rounding for each operation: here the small ones, in `angle` the angle of a sample, in
// `boundaries` the widths that add up. The crates above see these contracts only.
#![tactic(auto)]

ghost use Rattle.std.specs.Prelude.{◌≡◌, refl, is_nan, Float as Ieee754};
ghost use Rattle.std.specs.Ordering.{float_partial_cmp};
ghost use Rattle.arith.specs.Leaves.{abs_of, midpoint_of, flush_of, max_of, min_of, plus_of, cmul_conj_of, cross_of, edge_of, step_of, whole_of, width_of, fsk_width_of, run_fix_of, gain_of, lead_len_of};

mod angle;
mod boundaries;

pub use angle::atan2_fast;
pub use boundaries::{carried_at, width_by};

// ---- units and types

// Whole steps.
#[derive(Clone, Copy, Default, PartialEq, Eq, PartialOrd, Ord)]
pub struct Steps(pub u32);

// 64ths of a step.
#[derive(Clone, Copy, Default)]
pub struct Fix64(pub u32);

// A complex sample: real and imaginary part.
#[derive(Clone, Copy, Default)]
pub struct C32 {
    pub re: f32,
    pub im: f32,
}

// A width with its signed remainder in 64ths, and the boundary at its end.
#[derive(Clone, Copy)]
pub struct Carried {
    pub width: Steps,
    pub remainder: i32,
    pub bound: u64,
}

// 1 / RUN_FIX steps is the resolution of the run ends of a frame, and of the boundaries of a train.
pub const RUN_FIX: f64 = 64.0;

// ---- what the Rust takes from its language and libraries

// The magnitude: the sign of a zero goes too. By the pattern, with no branch on the sign: with std's `f32::abs` a call of an FSK or Auto
// stream takes 1.0 % more instructions.
pub fn abs(x: f32) -> f32
    ensures { result ≡ abs_of x }
{
    if x.is_nan() {
        return x;
    }
    f32::from_bits(x.to_bits() % 0x8000_0000)
}

// f32::midpoint, by document 01: both widened, added, halved, narrowed.
#[tactic(auto, unfolding(crate::specs::Leaves::midpoint_of))]
pub fn midpoint(a: f32, b: f32) -> f32
    ensures { result ≡ midpoint_of a b }
{
    ieee::narrow((ieee::widen(a) + ieee::widen(b)) / 2.0)
}

// A subnormal number is +0 here (document 01's stand-in).
#[tactic(auto, unfolding(crate::specs::Leaves::flush_of))]
pub fn flush_denormal(x: f32) -> f32
    ensures { result ≡ flush_of x }
{
    if abs(x) < f32::MIN_POSITIVE { 0.0 } else { x }
}

// A float of either width: `max` and `min` are the same at both.
pub trait Float: Copy + PartialOrd {
    // The value, as clauses name it.
    ghost float: { Self → Ieee754 };

    fn is_nan(self) -> bool
        ensures { result ≡ is_nan (float self) };

    // Two are compared as IEEE 754 has it (5.11).
    ghost float_order_law: { (a b : Self) → Self.partial_cmp a b ≡ float_partial_cmp (float a) (float b) };
}

impl Float for f32 {
    ghost float = { λ x. x };

    fn is_nan(self) -> bool {
        f32::is_nan(self)
    }

    ghost float_order_law = { λ a b. refl };
}

impl Float for f64 {
    ghost float = { λ x. x };

    fn is_nan(self) -> bool {
        f64::is_nan(self)
    }

    ghost float_order_law = { λ a b. refl };
}

// The larger, and the other where one is a NaN. It is not std's `max`, since of two zeros that may answer either, and this the first.
pub fn max<F: Float>(a: F, b: F) -> F
    ensures { F.float result ≡ max_of (F.float a) (F.float b) }
{
    if a.is_nan() || a < b { b } else { a }
}

// The smaller, and the other where one is a NaN. It is not std's `min`, for the same reason.
pub fn min<F: Float>(a: F, b: F) -> F
    ensures { F.float result ≡ min_of (F.float a) (F.float b) }
{
    if a.is_nan() || b < a { b } else { a }
}

// ---- the leaves, in the Rust's order

// The most steps of a lead-in.
const BAND_PULSE_LEAD: u32 = 16;

// The steps of the lead-in: at most 4 min_steps - 1, so that its replay finishes at most one train and one frame, for each of which
// two need 4 min_steps.
pub fn lead_len(min_steps: u32) -> u32
    ensures { result ≡ lead_len_of min_steps }
{
    BAND_PULSE_LEAD.min(min_steps.saturating_mul(4).saturating_sub(1))
}

impl C32 {
    // The sum, part by part.
    pub fn plus(self, y: C32) -> C32
        ensures { result ≡ plus_of self y }
    {
        C32 {
            re: self.re + y.re,
            im: self.im + y.im,
        }
    }
}

// x times the conjugate of y.
pub fn cmul_conj(x: C32, y: C32) -> C32
    ensures { result ≡ cmul_conj_of x y }
{
    C32 {
        re: x.re * y.re + x.im * y.im,
        im: x.im * y.re - x.re * y.im,
    }
}

// Where the line from prev to cur crosses thr, as a part of the step from 0 to 1; 1 where it does not rise or fall.
#[tactic(auto, unfolding(crate::specs::Leaves::cross_of))]
pub fn cross(prev: f32, cur: f32, thr: f32) -> f64
    ensures { result ≡ cross_of prev cur thr }
{
    let d = cur - prev;
    if 0.0 < abs(d) {
        ieee::widen((thr - prev) / d).clamp(0.0, 1.0)
    } else {
        1.0
    }
}

// The time of the crossing before the sample idx.
pub fn edge(idx: u64, frac: f64) -> f64
    ensures { result ≡ edge_of idx frac }
{
    std::num::nearest_u64_to_f64(idx) - 1.0 + frac
}

// The step of a time: rounded, at least 0.
pub fn step_of(t: f64) -> u64
    ensures { result ≡ step_of t }
{
    std::num::saturating_f64_to_u64(ieee::round(t))
}

// A width in whole steps: rounded, at least 0, at most the largest u32.
pub fn whole(x: f64) -> u32
    ensures { result ≡ whole_of x }
{
    std::num::saturating_f64_to_u32(ieee::round(x))
}

// How wide a pulse or gap between two edges is, by itself: never off by more than half a step.
pub fn width(a: f64, b: f64) -> Steps
    ensures { result ≡ width_of a b }
{
    Steps(whole(b - a))
}

// How wide a frequency run is. Both ends are rounded before they are subtracted, so that the widths of runs in a row give the whole.
pub fn fsk_width(a: f64, b: f64) -> Steps
    ensures { result ≡ fsk_width_of a b }
{
    Steps(whole(ieee::round(b) - ieee::round(a)))
}

// What is not above this counts as 0.
const FLUSH: f32 = 1e-30;

// What brings a sample of this envelope near 1: a power of two at or above the square's inverse, read off the exponent's field, so that no
// sample costs a division.
#[tactic(auto, unfolding(crate::specs::Leaves::gain_of))]
pub fn a_gain(e: f32) -> f32
    ensures { result ≡ gain_of e }
{
    let q = e * e;
    if q > FLUSH {
        let exponent = q.to_bits() / 0x80_0000 % 256;
        f32::from_bits(254u32.saturating_sub(exponent) * 0x80_0000)
    } else {
        0.0
    }
}

// A time after the origin of a frame, in 64ths of a step.
pub fn run_fix(t: f64) -> Fix64
    ensures { result ≡ run_fix_of t }
{
    Fix64(whole(t * RUN_FIX))
}
