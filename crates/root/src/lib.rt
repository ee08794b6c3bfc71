// The square root of IEEE 754-2019, in the standard's order: special operands, the exact result, the rounding.
#![tactic(auto)]

ghost use Rattle.std.specs.Prelude.{◌≡◌, ◌+◌, ◌-◌, ◌*◌, ◌^◌, ◌<◌, ◌≤◌, T};
ghost use Rattle.std.specs.Float.Ieee.Positive.{positive};
ghost use Rattle.root.specs.Root.{special_of, scaled, InRange, IsRoot, exact_of, round_exact_of, sqrt_of};

// The first step: what is answered with no root taken, if anything is. A NaN (IEEE 754-2019, 6.2), a zero with its sign (6.3) and plus
// infinity (6.1) are their own roots, and for what is below zero the operation is invalid: a NaN (7.2).
fn special(x: f32) -> Option<f32>
    ensures { result ≡ special_of x }
{
    if x.is_nan() || x == 0.0 || x == f32::INFINITY {
        return Some(x);
    }
    (x < 0.0).then_some(f32::NAN)
}

// The exact root of a positive number: its 25 digits, whether it has more, and the power.
#[derive(Clone, Copy)]
pub struct Exact {
    pub root: u32,
    pub more: bool,
    pub power: u32,
}

// The largest whole number whose square is at most n: from the table's first digits, one more than
// those, two steps of Newton's, (g + n / g) / 2. They end at that number or at the next one.
fn whole_root(n: u64) -> u64
    requires { InRange n }
    ensures { IsRoot n result }
{
    let d = table::first_digits(n / 0x100_0000_0000) as u32 + 1;
    let g = u64::from(d * 0x1_0000 + (n / 0x4_0000) as u32 / d);
    let h = (g + n / g) / 2;
    if n < h * h { h - 1 } else { h }
}

// The exact root of a * 2 ^ k of 4 ^ -75, brought by a power of 4 to 2 ^ 48 or more and below 2 ^ 50.
fn exact_of(a: u32, k: u32) -> Exact
    requires { (0 < a) × (a < 2 ^ 24) × (k < 255) }
    ensures { result ≡ exact_of (a * 2 ^ k) }
{
    let s = 32 - a.leading_zeros();
    let p = (s + k + 1) / 2;
    let n = u64::from(a) << (50 + k - (p + p));
    let r = whole_root(n);
    Exact {
        root: r as u32,
        more: r * r < n,
        power: p,
    }
}

// The second step, for a finite number above zero, by its digits and its exponent.
fn exact_root(x: f32) -> Exact
    requires { T (positive x) }
    ensures { result ≡ exact_of (scaled x) }
{
    let b = x.to_bits();
    let f = b / 0x80_0000;
    let t = b % 0x80_0000;
    if f == 0 {
        exact_of(t, 1)
    } else {
        exact_of(t + 0x80_0000, f)
    }
}

// The third step: to the nearest f32, ties to even (4.3.1), from the exact root alone.
fn round_exact(e: Exact) -> f32
    requires { (2 ^ 24 ≤ e.root) × (e.root < 2 ^ 25) × (e.power ≤ 200) }
    ensures { result ≡ round_exact_of e }
{
    let base = (e.power + 50) * 0x80_0000;
    let kept = if e.more {
        (e.root + 1) / 2
    } else {
        (e.root + e.root / 2 % 2) / 2
    };
    f32::from_bits(base + kept)
}

// The square root of x. A `match` and no `unwrap_or_else`: that x is positive where nothing is answered, the closure would have to be told
// in a clause of its own.
pub fn sqrt(x: f32) -> f32
    ensures { result ≡ sqrt_of x }
{
    match special(x) {
        Some(root) => root,
        None => round_exact(exact_root(x)),
    }
}
