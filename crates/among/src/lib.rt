// One lane of sixteen (document 02, R-4): the lane's own answers, and refusal 12 where begin finds
// four others out of idle.
#![tactic(auto)]

ghost use Rattle.std.specs.Prelude.{◌≡◌, List, ℕ, cond};
ghost use Rattle.refusals.specs.Order.{number_of};
ghost use Rattle.calls.specs.Turn.{Called};
ghost use Rattle.among.specs.Among.{called_among, out_of, outs, no_antenna};
ghost use Rattle.among.specs.Settled.{is_begin_of, late_by, settled_by};

use commands::{Command, Found};
use lane::{Answer, Lane, Reply};
use refusals::Refusal;
use shared::Next;

// How many lanes may be out of idle together.
pub const PLACES: u32 = 4;

// ---- one lane, others being out of idle

fn is_begin(k: Found) -> bool
    ensures { result ≡ is_begin_of k }
{
    matches!(k, Ok(Command::Begin(_)))
}

// What stands for a refusal, and has its number: `Refusal`, and the number by itself. So `settle` asks no more of its callers than a number.
pub trait Numbered: Copy + Into<u32> + From<Refusal> {
    ghost use Rattle.std.specs.Prelude.{◌≡◌, ℕ};
    ghost use Rattle.refusals.specs.declared.Refusal.TheVariants as refusal;

    ghost number: { Self → ℕ };

    // Refusal 12.
    ghost twelve: { Self };

    // Both are what the conversions give.
    ghost converted: { (k : Self) (n : ℕ) → Self.converts k n → n ≡ number k };

    ghost made: { (k : Self) → Self.from_gives refusal.Places k → k ≡ twelve };
}

impl Numbered for Refusal {
    ghost use Rattle.refusals.specs.declared.Refusal.TheVariants as refusal;

    ghost number = { number_of };

    ghost twelve = { refusal.Places };

    ghost converted = { λ k n h. h };

    ghost made = { λ k h. h };
}

impl Numbered for u32 {
    ghost number = { λ k. k };

    ghost twelve = { 12 };

    ghost converted = { λ k n h. h };

    ghost made = { λ k h. h };
}

// Whether refusal 12 comes before this reply to a begin: the checks up to 7 come before it. A match, as `is_none_or` over
// `r.err()` would hide that an accepted begin is late too.
fn is_late<E: Numbered>(r: Result<Next, E>) -> bool
    ensures { result ≡ late_by E.number r }
{
    match r {
        Err(k) => {
            let n: u32 = k.into();
            n == 8
        }
        Ok(_) => true,
    }
}

// The reply and the lane that the lane l answered k with by itself, or refusal 12 in their place.
pub fn settle<E: Numbered>(
    l: Lane,
    a: (Result<Next, E>, Lane),
    k: Found,
    others: u32,
) -> (Result<Next, E>, Lane)
    ensures { result ≡ settled_by E.number E.twelve others k l a }
{
    let refused = is_begin(k) & ((PLACES <= others) & is_late(a.0));
    if refused {
        return (Err(E::from(Refusal::Places)), l);
    }
    a
}

// The answer of a lane to a command, `others` other lanes being out of idle. Begin writes to neither
// buffer, so that refusal 12 leaves them as they were.
pub fn call(l: Lane, others: u32, k: Found, ook: &mut [u32], fsk: &mut [u32]) -> Answer
    ensures { ◌≡◌ {A = Called} (result, ook.new, fsk.new) (called_among others (l, ook.old, fsk.old) k) }
{
    let a = calls::call(l, k, ook, fsk);
    let (reply, lane) = settle(l, (a.reply, a.lane), k, others);
    Answer { reply, lane }
}

// ---- sixteen

// Whether a lane is out of idle.
pub fn is_out(l: &Lane) -> bool
    ensures { cond result 1 0 ≡ out_of l.now }
{
    l.phase != 0
}

// How many of the lanes are out of idle.
pub fn count_out(lanes: &[Lane; 16]) -> u32
    ensures { result ≡ outs lanes.now }
{
    lanes.iter().map(|l| u32::from(is_out(l))).sum()
}

// The reply to a command whose antenna is above 15: refusal 6, right after 1 and 2.
pub fn no_antenna(k: Found) -> Reply
    ensures { result ≡ no_antenna k }
{
    match k {
        Ok(_) => Err(Refusal::Index),
        Err(m) => calls::missed(m),
    }
}
