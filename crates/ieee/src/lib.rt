// IEEE 754-2019 as the lane uses it: bit patterns, change of width, rounding to integral.
#![tactic(auto)]

ghost use Rattle.std.specs.Prelude.{◌≡◌, ◌+◌, ◌-◌, ◌*◌, ◌^◌, ◌<◌, ◌≤◌, Bool, if◌then◌else◌};
ghost use Rattle.std.specs.Float.Ieee as Ieee;
ghost use Rattle.std.specs.Float.{binary32, binary64};
ghost use Rattle.std.specs.Float.Ieee.Nearest.{closest};
ghost use Rattle.ieee.specs.Rounding.{round_of, narrow_of, widen_of};

// ---- bit patterns

// Each of these four, and `widen` below, is one call of std. They stay for their contracts, which are the standard's own words (`to_bits`,
// `of_bits`, convertFormat) and what the crates above cite. A trait over both widths would be no plainer: it would add a type for the
// pattern, its format and an impl of both for each width.

// The pattern of a float. That of the NaN is quiet, with no other digit set.
pub fn bits_of_f32(x: f32) -> u32
    ensures { result ≡ Ieee.to_bits binary32 x }
{
    std::num::f32_to_bits_with_nan(x)
}

// The same of f64.
pub fn bits_of_f64(x: f64) -> u64
    ensures { result ≡ Ieee.to_bits binary64 x }
{
    std::num::f64_to_bits_with_nan(x)
}

// The float of a pattern: each pattern of a NaN gives the one NaN.
pub fn f32_of_bits(n: u32) -> f32
    ensures { result ≡ Ieee.of_bits binary32 n }
{
    std::num::f32_from_bits_with_nan(n)
}

// The same of f64.
pub fn f64_of_bits(n: u64) -> f64
    ensures { result ≡ Ieee.of_bits binary64 n }
{
    std::num::f64_from_bits_with_nan(n)
}

// ---- change of width and rounding to integral

// The pattern of plus infinity.
const INFINITY_32: u32 = 0x7f80_0000;

// The digit of the sign.
const SIGN_32: u32 = 0x8000_0000;

const SIGN_64: u64 = 0x8000_0000_0000_0000;

// The leading digit of a normal f64, which its pattern leaves out: the exponent's field stands above its place, the 52 digits below.
const LEADING: u64 = 0x10_0000_0000_0000;

// v / u to the nearest whole number, a tie to the even one (4.3.1).
fn closest_div(v: u64, u: u64) -> u64
    requires { (v < 0x8000_0000_0000_0000) × (0 < u) }
    ensures { result ≡ closest v u }
{
    let q = v / u;
    let rest = v % u;
    let over = u - rest;
    if rest < over {
        q
    } else if over < rest {
        q + 1
    } else {
        q + q % 2
    }
}

// 2^j.
fn power(j: u64) -> u64
    requires { j < 64 }
    ensures { result ≡ 2 ^ j }
{
    1u64 << j
}

// The f64's exponent field from which on the f32 is not 0, from which on it is normal, and above which it is infinite.
const TINY: u64 = 872;

const NORMAL: u64 = 897;

const LARGE: u64 = 1150;

// The bits below the sign of the f32 nearest to the f64 that has the exponent's field e and the
// digits t: what is right for one sign is right for both.
fn narrow_fields(e: u64, t: u64) -> u32
    requires { (e ≤ 2047) × (t < 0x10_0000_0000_0000) × (e ≡ 2047 → t ≡ 0) }
    ensures { ((s : Bool) → Ieee.of_bits binary32 ((if s then 0x8000_0000 else 0) + result) ≡ narrow_of (Ieee.of_fields binary64 s e t)) × (result ≤ 0x7f80_0000) }
{
    if e < TINY {
        return 0;
    }
    if LARGE < e {
        return INFINITY_32;
    }
    let d = LEADING + t;
    if e < NORMAL {
        closest_div(d, power(926 - e)) as u32
    } else {
        ((e - NORMAL) * 0x80_0000 + closest_div(d, 0x2000_0000)) as u32
    }
}

// convertFormat (5.4.2) to the narrower format, rounded to nearest, a tie to even. std's `nearest_f64_to_f32_with_nan` gives the same; with it
// a call of a listing takes 4 to 5 % more instructions.
pub fn narrow(x: f64) -> f32
    ensures { result ≡ narrow_of x }
{
    if x.is_nan() {
        return f32::NAN;
    }
    let b = x.to_bits();
    let e = b % SIGN_64 / LEADING;
    let r = narrow_fields(e, b % LEADING);
    if b < SIGN_64 {
        f32::from_bits(r)
    } else {
        f32::from_bits(SIGN_32 + r)
    }
}

// The exponent field of a half, and of 2^52, from which on an f64 is whole.
const HALF: u64 = 1022;

const WHOLE: u64 = 1075;

// The magnitude of the f64 that has the exponent's field e and the digits t, to the nearest whole
// number, a tie to the upper one, for magnitudes below 2^52.
fn whole_fields(e: u64, t: u64) -> u64
    requires { (e < 1075) × (t < 0x10_0000_0000_0000) }
    ensures { ((s : Bool) → round_of (Ieee.of_fields binary64 s e t) ≡ Ieee.round binary64 s result 1) × (result ≤ 0x20_0000_0000_0000) }
{
    if e < HALF {
        return 0;
    }
    let u = power(WHOLE - e);
    (2 * (LEADING + t) + u) / (2 * u)
}

// roundToIntegralTiesToAway (5.9): `libm::round`. A zero keeps x's sign (6.3). std's `f64::round` gives the same; with it the FSK widths of a
// frame take 9 % more instructions.
pub fn round(x: f64) -> f64
    ensures { result ≡ round_of x }
{
    if x.is_nan() {
        return x;
    }
    let b = x.to_bits();
    let e = b % SIGN_64 / LEADING;
    if WHOLE <= e {
        return x;
    }
    let r = whole_fields(e, b % LEADING) as f64;
    if b < SIGN_64 { r } else { -r }
}

// convertFormat (5.4.2) to the wider format, which holds each f32.
pub fn widen(x: f32) -> f64
    ensures { result ≡ widen_of x }
{
    std::num::f32_to_f64_with_nan(x)
}
