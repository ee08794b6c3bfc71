// Widths that add up (document 02, R-1): the edges of a train become boundaries, whole 64ths of a step after the first pulse's edge (the
// origin), and a width is the difference of two boundaries, each rounded to whole steps.
ghost use Rattle.std.specs.Prelude.{◌≡◌, ◌≤◌, min, max};
ghost use Rattle.arith.specs.Carry.{bound_of, rounded_of, remainder_of, between_of, carried_at, width_by};

use crate::{Carried, RUN_FIX, Steps, step_of, width};

// The boundary of the edge t: its distance from the origin to the nearest 64th, at most MAX_BOUND, never below the boundary before.
#[tactic(auto, unfolding(crate::specs::Carry::bound_of))]
fn bound_of(origin: f64, before: u64, t: f64) -> u64
    ensures { result ≡ bound_of origin before t }
{
    before.max(step_of((t - origin) * RUN_FIX).min(domain::MAX_BOUND))
}

// A boundary in whole steps, a tie up. Nothing is added to the boundary, so that no sum can wrap.
fn rounded(b: u64) -> u64
    ensures { result ≡ rounded_of b }
{
    b / 64 + b % 64 / 32
}

// A boundary less 64 times its rounded value, from -32 to 31.
fn remainder(b: u64) -> i32
    ensures { result ≡ remainder_of b }
{
    ((b % 64 + 32) % 64) as i32 - 32
}

// The width between two boundaries, at most the largest u32.
fn between(before: u64, b: u64) -> Steps
    requires { before ≤ b }
    ensures { result ≡ between_of before b }
{
    Steps(u32::try_from(rounded(b) - rounded(before)).unwrap_or(u32::MAX))
}

// The width from the boundary before to that of the edge t.
pub fn carried_at(origin: f64, before: u64, t: f64) -> Carried
    ensures { result ≡ carried_at origin before t }
{
    let bound = bound_of(origin, before, t);
    Carried {
        width: between(before, bound),
        remainder: remainder(bound),
        bound,
    }
}

// How wide a pulse or gap between the edges a and b is: by boundaries where carry is 1, else by itself.
#[tactic(auto, unfolding(crate::specs::Carry::width_by))]
pub fn width_by(carry: u32, origin: f64, before: u64, a: f64, b: f64) -> Carried
    ensures { result ≡ width_by carry origin before a b }
{
    if carry == 1 {
        carried_at(origin, before, b)
    } else {
        Carried {
            width: width(a, b),
            remainder: 0,
            bound: before,
        }
    }
}
