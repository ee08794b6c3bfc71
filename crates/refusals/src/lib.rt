// The checks of document 01's refusals 3 to 8, over the parts of a lane and the arguments of a call.
#![tactic(auto)]

ghost use Rattle.std.specs.Prelude.{◌≡◌, ◌+◌, leb};
ghost use Rattle.refusals.specs.Serial.{serial_ok, serial_left, serials_match};
ghost use Rattle.refusals.specs.Domain.{within, between, settings_ok, unset_ok, factor_ok, envelope_ok, sample_ok, index_ok, room_ok};
ghost use Rattle.refusals.specs.State.{flag, run_ok, env_ok, train_ok, pres_ok, runs_ok, committed_ok, frame_ok, out_ok, burst_ok, lead_ok, cand_ok};
ghost use Rattle.refusals.specs.Order.{number_of, check};

use arith::C32;
use burst::{Burst, Lead};
use fsk::{Committed, Frame, Runs};
use ook::{Env, Train};
use presence::Pres;
use run::Run;
use shared::{Out, Settings};

// Why a call is refused: document 01's numbers 1 to 8, and document 02's 12 and 13. 9 is of the host library alone, which gives it by
// number; 10 and 11 are not in use.
#[derive(Clone, Copy, PartialEq, Eq)]
pub enum Refusal {
    // The command byte is none of the commands'.
    Unknown = 1,
    // The bytes end before the command does.
    Short = 2,
    // A setting is outside its range, or there are none yet.
    Settings = 3,
    // The lane is outside its limits.
    Lane = 4,
    // A begin of a lane that is not idle, or a step or a close of one that is.
    Phase = 5,
    // The index is too high, or does not follow the last; or the antenna's number is too high.
    Index = 6,
    // A float is outside its range, or is a NaN.
    Float = 7,
    // A buffer has too few slots.
    Room = 8,
    // Four other antennas are out of idle.
    Places = 12,
    // The lane's serial is spent; or those of lane and record differ, or are 0.
    Serial = 13,
}

impl From<Refusal> for u32 {
    ghost from_gives = { λ k n. n ≡ number_of k };

    fn from(k: Refusal) -> u32 {
        k as u32
    }
}

fn within_range(lo: u32, hi: u32, n: u32) -> bool
    ensures { result ≡ within lo hi n }
{
    (lo..=hi).contains(&n)
}

// Two comparisons, which the definition has too: tried, `(lo..=hi).contains(&x)` is not proved without an answer, since its contract
// speaks of the order that compares two floats and no definition here does.
fn between_floats(lo: f32, hi: f32, x: f32) -> bool
    ensures { result ≡ between lo hi x }
{
    (lo <= x) & (x <= hi)
}

// Refusal 3: the settings lie in the domain.
#[tactic(auto, unfolding(crate::specs::Domain::settings_ok))]
pub fn settings_ok(p: Settings) -> bool
    ensures { result ≡ settings_ok p }
{
    (p.mode <= 2)
        & within_range(1, domain::MAX_STEPS, p.min_steps)
        & within_range(1, domain::MAX_STEPS, p.gap_steps)
        & within_range(1, p.gap_steps, p.pre_timeout)
        & within_range(1, domain::MAX_STEPS, p.long_steps)
        & within_range(1, domain::MAX_PULSES, p.max_pulses)
        & between_floats(0.0, 1.0, p.alpha)
        & between_floats(0.0, 1000000.0, p.gap_ratio)
        & between_floats(0.0, 1000000.0, p.fsk_delta)
        & between_floats(0.0, 1000000.0, p.fsk_split)
        & (p.carry <= 1)
}

// The settings of a lane that never had any. Not `p == Settings::default()`, to which a -0 is 0.
#[tactic(auto, unfolding(crate::specs::Domain::unset_ok))]
pub fn unset_ok(p: Settings) -> bool
    ensures { result ≡ unset_ok p }
{
    (p.mode == 0)
        & (p.min_steps == 0)
        & (p.gap_steps == 0)
        & (p.pre_timeout == 0)
        & (p.long_steps == 0)
        & (p.max_pulses == 0)
        & (ieee::bits_of_f32(p.alpha) == 0)
        & (ieee::bits_of_f32(p.gap_ratio) == 0)
        & (ieee::bits_of_f32(p.fsk_delta) == 0)
        & (ieee::bits_of_f32(p.fsk_split) == 0)
        & (p.carry == 0)
}

// Refusal 7, float by float.
pub fn factor_ok(x: f32) -> bool
    ensures { result ≡ factor_ok x }
{
    between_floats(0.0, 1000000.0, x)
}

pub fn envelope_ok(x: f32) -> bool
    ensures { result ≡ envelope_ok x }
{
    between_floats(0.0, 1.0e18, x)
}

pub fn sample_ok(x: C32) -> bool
    ensures { result ≡ sample_ok x }
{
    between_floats(-1.0e18, 1.0e18, x.re) & between_floats(-1.0e18, 1.0e18, x.im)
}

pub fn index_ok(i: u64) -> bool
    ensures { result ≡ index_ok i }
{
    i <= domain::MAX_INDEX
}

// Refusal 13 of begin and opening: the serial is not spent.
pub fn serial_left(serial: u64) -> bool
    ensures { result ≡ serial_left serial }
{
    serial < domain::SPENT_SERIAL
}

// Refusal 13 of fetching a part: the record is of the lane's last accepted call, and so not of none, 0.
pub fn serials_match(lane: u64, out: u64) -> bool
    ensures { result ≡ serials_match lane out }
{
    (out != 0) & (out == lane)
}

// Refusal 8: the buffers have two slots for each pulse, the FSK buffer outside OOK mode only.
pub fn room_ok(p: Settings, ook: usize, fsk: usize) -> bool
    ensures { result ≡ room_ok p ook fsk }
{
    let slots = 2 * (p.max_pulses as usize);
    (slots <= ook) & ((p.mode == 0) | (slots <= fsk))
}

// Refusal 4, part by part.
fn run_ok(r: Run) -> bool
    ensures { result ≡ run_ok r }
{
    (r.level <= 1) & (r.confirmed <= 1)
}

fn env_ok(v: Env) -> bool
    ensures { result ≡ env_ok v }
{
    run_ok(v.run) & (v.ref_pending <= 1)
}

// a + b <= max, whatever the three are.
fn sum_within(a: u32, b: u32, max: u32) -> bool
    ensures { result ≡ leb (a + b) max }
{
    u64::from(a) + u64::from(b) <= u64::from(max)
}

fn train_ok(max: u32, t: Train) -> bool
    ensures { result ≡ train_ok max t }
{
    (t.started <= 1)
        & (t.open <= 1)
        & (t.truncated <= 1)
        & sum_within(t.ook_n, t.open, max)
        & (t.bound <= domain::MAX_BOUND)
}

fn pres_ok(q: Pres) -> bool
    ensures { result ≡ pres_ok q }
{
    run_ok(q.run)
}

fn runs_ok(r: Runs) -> bool
    ensures { result ≡ runs_ok r }
{
    run_ok(r.run) & (r.fsk_has_prev <= 1)
}

fn committed_ok(max: u32, c: Committed) -> bool
    ensures { result ≡ committed_ok max c }
{
    (c.fsk_open <= 1)
        & (c.fsk_full <= 1)
        & sum_within(c.fsk_n, c.fsk_open, max)
        & (c.fsk_runs <= domain::MAX_COUNT)
}

#[tactic(auto, unfolding(crate::specs::State::frame_ok))]
fn frame_ok(max: u32, f: Frame) -> bool
    ensures { result ≡ frame_ok max f }
{
    (f.fsk_phase <= 1)
        & (f.mean.fsk_cnt <= domain::MAX_COUNT)
        & (f.early.early <= 1)
        & runs_ok(f.runs)
        & committed_ok(max, f.done)
}

// Refusal 4's bound of a serial, the lane's and its records'.
pub fn serial_ok(serial: u64) -> bool
    ensures { result ≡ serial_ok serial }
{
    serial <= domain::MAX_SERIAL
}

fn out_ok(o: Out) -> bool
    ensures { result ≡ out_ok o }
{
    (o.state <= 1) & (o.cut <= 1) & (o.fsk <= 1) & serial_ok(o.serial)
}

#[tactic(auto, unfolding(crate::specs::State::burst_ok))]
pub fn burst_ok(max: u32, b: Burst) -> bool
    ensures { result ≡ burst_ok max b }
{
    env_ok(b.env)
        & train_ok(max, b.train)
        & out_ok(b.out_ook)
        & pres_ok(b.pres)
        & frame_ok(max, b.frame)
        & out_ok(b.out_fsk)
}

#[tactic(auto, unfolding(crate::specs::State::lead_ok))]
pub fn lead_ok(phase: u32, min_steps: u32, l: Lead) -> bool
    ensures { result ≡ lead_ok phase min_steps l }
{
    (l.lead_at <= domain::MAX_INDEX) & ((phase != 1) | (l.lead_n < arith::lead_len(min_steps)))
}

#[tactic(auto, unfolding(crate::specs::State::cand_ok))]
pub fn cand_ok(phase: u32, min_steps: u32, f: Frame) -> bool
    ensures { result ≡ cand_ok phase min_steps f }
{
    (phase != 2) | (f.fsk_phase != 0) | (f.cand.fsk_cand < shared::fsk_min(min_steps))
}

// A check that fails refuses by k; one after another with `?`, the first that fails refuses.
pub fn check(ok: bool, k: Refusal) -> Result<(), Refusal>
    ensures { result ≡ check k ok (Ok tt) }
{
    if ok { Ok(()) } else { Err(k) }
}
