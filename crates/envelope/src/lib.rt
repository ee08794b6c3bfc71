// The stages of `sample` that need no presence: `see` (level, run, refinement, signal level, the
// pulse's sum), `act` (a run is confirmed) and `tail` (a carrier, the end of the burst). The whole
// sample calls presence between act and tail, outside OOK mode.
#![tactic(auto)]

ghost use Rattle.std.specs.Prelude.{◌≡◌};
ghost use Rattle.envelope.specs.See.{refine_due_of, high_of, pac_of, see_of};
ghost use Rattle.envelope.specs.Act.{rise_of, fall_of, confirm_of, act_of};
ghost use Rattle.envelope.specs.Core.{whole_acted};
ghost use Rattle.shared.specs.Core.{whole_out};
ghost use Rattle.ook.specs.Core.{whole_done};
ghost use Rattle.envelope.specs.Tail.{carrier_of, gone_of, has_pulses_of, gap_over_of, limit_of, wait_of, tail_of};

use arith::C32;
use ook::{DoneCore, EndedCore, Env, Train};
use run::{Crossing, Run};
use shared::{Next, Out, OutCore, Settings};

// What a sample reads beside the burst and the ring: its index, the lead-in's, the noise, the
// envelope, the sample and the one before.
#[derive(Clone, Copy)]
pub struct At {
    pub idx: u64,
    pub lead_at: u64,
    pub noise: f32,
    pub e: f32,
    pub x: C32,
    pub xp: C32,
}

// What a sample shows: its level, whether a run began with it, the product with the sample before,
// and signal level, run and pulse's sum after it.
#[derive(Clone, Copy)]
pub struct Seen {
    pub on: bool,
    pub began: bool,
    pub d: C32,
    pub high: f32,
    pub env: Env,
    pub pac: C32,
}

#[derive(Clone, Copy)]
pub struct ActedOf<O> {
    pub next: Next,
    pub env: Env,
    pub train: Train,
    pub out: O,
}

pub type Acted = ActedOf<Out>;

pub type ActedCore = ActedOf<OutCore>;

// What the end of a burst reads of presence. Numbers and not flags: the definitions read the numbers of its run.
#[derive(Clone, Copy)]
pub struct Absence {
    pub frames: u32,
    pub p_level: u32,
    pub p_confirmed: u32,
}

// ---- see

// Half the width of the hysteresis, as a part of the threshold.
const HYSTERESIS: f32 = 0.125;

// The signal level's step with each sample of a pulse.
const HIGH_RATIO: f32 = 0.015625;

// The edge of a run is refined once, when the run is long enough: a glitch is not refined.
#[tactic(auto, unfolding(crate::specs::See::refine_due_of))]
fn refine_due(min_steps: u32, a: At, ring: &[f32; 32], high: f32, on: bool, s: Env) -> Env
    ensures { result ≡ refine_due_of min_steps a ring.now high on s }
{
    if s.ref_pending == 1 && s.run.run_len >= shared::refine_at(min_steps) {
        let t_run = ook::refine(ring, min_steps, high, a.noise, on, a.lead_at, a.idx, s);
        Env {
            run: Run { t_run, ..s.run },
            ref_pending: 0,
            ..s
        }
    } else {
        s
    }
}

// Only samples over the upper threshold move the signal level: those of an edge would pull it down.
#[tactic(auto, unfolding(crate::specs::See::high_of))]
fn high_of(on: bool, e: f32, upper: f32, high: f32) -> f32
    ensures { result ≡ high_of on e upper high }
{
    if on && e > upper {
        arith::flush_denormal(high + HIGH_RATIO * (e - high))
    } else {
        high
    }
}

#[tactic(auto, unfolding(crate::specs::See::pac_of))]
fn pac_of(on: bool, pac: C32, d: C32) -> C32
    ensures { result ≡ pac_of on pac d }
{
    if on { pac.plus(d) } else { pac }
}

// The level, the run, its refinement, the signal level and the pulse's sum, in the Rust's order.
#[tactic(auto, unfolding(run::specs::Run::edge_at, run::specs::Run::is_high_of, crate::specs::See::threshold_of, crate::specs::See::on_of, crate::specs::See::see_of))]
pub fn see(p: Settings, a: At, ring: &[f32; 32], high: f32, e_prev: f32, s: Env, pac: C32) -> Seen
    ensures { result ≡ see_of p a ring.now high e_prev s pac }
{
    let t = arith::midpoint(a.noise, high);
    let h = t * HYSTERESIS;
    let up = s.run.level == 1;
    // A level is left later than it is reached, so that noise at the threshold makes no runs.
    let thr = if up { t - h } else { t + h };
    let on = run::is_high(up, a.e, thr);
    let m = s.run.meets(u32::from(on));
    let c = Crossing {
        idx: a.idx,
        before: e_prev,
        at: a.e,
        thr,
    };
    let moved = ook::advance(m, s, on, c);
    let d = arith::cmul_conj(a.x, a.xp);
    Seen {
        on,
        began: m.begins(),
        d,
        high: high_of(on, a.e, t + h, high),
        env: refine_due(p.min_steps, a, ring, high, on, moved),
        pac: pac_of(on, ook::pac_run(m, on, pac), d),
    }
}

// ---- act

// The width of the run before, in the mode that carry gives; the train takes its boundary on.
#[tactic(auto, unfolding(crate::specs::Act::rise_of))]
fn rise(carry: u32, env: Env, t: Train, ook: &mut [u32]) -> Train
    ensures { (result, ook.new) ≡ rise_of carry env t ook.old }
{
    if t.started == 1 {
        let gap = arith::width_by(carry, t.origin, t.bound, env.run.t_prev, env.run.t_run);
        Train {
            bound: gap.bound,
            ..t
        }
        .close_gap(gap.width, ook)
    } else {
        Train {
            started: 1,
            start: arith::step_of(env.c_run),
            acc: C32::default(),
            origin: env.run.t_run,
            bound: 0,
            ..t
        }
    }
}

#[tactic(auto, unfolding(crate::specs::Act::fall_of))]
fn fall(p: Settings, s: Seen, b: EndedCore, ook: &mut [u32]) -> DoneCore
    ensures { (whole_done result, ook.new) ≡ fall_of p s.env b.train s.pac s.high (whole_out b.out) ook.old }
{
    let t = b.train;
    let r = s.env.run;
    if t.started == 1 {
        let len = arith::width_by(p.carry, t.origin, t.bound, r.t_prev, r.t_run);
        EndedCore {
            train: Train {
                bound: len.bound,
                ..t
            },
            ..b
        }
        .pulse_done(p, s.pac, s.high, len.width, s.env.c_run, ook)
    } else {
        b.then(Next::Stay)
    }
}

#[tactic(auto, unfolding(crate::specs::Act::confirm_of))]
fn confirm(due: bool, p: Settings, s: Seen, b: EndedCore, ook: &mut [u32]) -> DoneCore
    ensures { (whole_done result, ook.new) ≡ confirm_of due p s.on s.env b.train s.pac s.high (whole_out b.out) ook.old }
{
    if !due {
        b.then(Next::Stay)
    } else if s.on {
        EndedCore {
            train: rise(p.carry, s.env, b.train, ook),
            ..b
        }
        .then(Next::Stay)
    } else {
        fall(p, s, b, ook)
    }
}

// A run that has lasted min_steps counts from this sample on.
#[tactic(auto, unfolding(crate::specs::Act::act_of, crate::specs::Act::confirm_if))]
pub fn act(p: Settings, s: Seen, t: Train, out: OutCore, ook: &mut [u32]) -> ActedCore
    ensures { (whole_acted result, ook.new) ≡ act_of p s t (whole_out out) ook.old }
{
    let due = s.env.run.due(p.min_steps);
    let d = confirm(due, p, s, EndedCore { train: t, out }, ook);
    ActedCore {
        next: d.next,
        env: Env {
            run: s.env.run.confirm_if(due),
            ..s.env
        },
        train: d.train,
        out: d.out,
    }
}

// ---- tail

#[tactic(auto, unfolding(crate::specs::Tail::gone_of))]
fn is_gone(on: bool, r: Run, a: Absence) -> bool
    ensures { result ≡ gone_of on r.confirmed a.p_level a.p_confirmed }
{
    !on && r.confirmed == 1 && a.p_level == 0 && a.p_confirmed == 1
}

#[tactic(auto, unfolding(crate::specs::Tail::has_pulses_of))]
fn has_pulses(t: Train) -> bool
    ensures { result ≡ has_pulses_of t }
{
    t.started == 1 && u64::from(t.ook_n) + u64::from(t.open) > 0
}

#[tactic(auto, unfolding(crate::specs::Tail::gap_over_of))]
fn gap_over(p: Settings, t: Train, n: u32) -> bool
    ensures { result ≡ gap_over_of p t n }
{
    n > p.gap_steps || ook::gap_ratio_exceeded(p.gap_ratio, t.longest, n)
}

fn limit(p: Settings, frames: u32) -> u32
    ensures { result ≡ limit_of p frames }
{
    if frames > 0 {
        p.gap_steps
    } else {
        p.pre_timeout
    }
}

#[tactic(auto, unfolding(crate::specs::Tail::wait_of))]
fn wait(p: Settings, n: u32, frames: u32, high: f32, b: EndedCore, ook: &mut [u32]) -> DoneCore
    ensures { (whole_done result, ook.new) ≡ wait_of p n b.train frames high (whole_out b.out) ook.old }
{
    let t = b.train;
    if has_pulses(t) {
        if gap_over(p, t, n) {
            b.end_train(high, ook).then(Next::Idle)
        } else {
            b.then(Next::Stay)
        }
    } else if n > limit(p, frames) {
        EndedCore {
            train: Train { started: 0, ..t },
            ..b
        }
        .then(Next::Idle)
    } else {
        b.then(Next::Stay)
    }
}

// A run of the carrier that is too long ends the burst, and so does a gap that is long enough where the carrier is gone.
#[tactic(auto, unfolding(crate::specs::Tail::tail_of, crate::specs::Tail::carrier_of))]
pub fn tail(
    p: Settings,
    on: bool,
    e: f32,
    r: Run,
    a: Absence,
    high: f32,
    t: Train,
    out: OutCore,
    ook: &mut [u32],
) -> DoneCore
    ensures { (whole_done result, ook.new) ≡ tail_of p on e r a high t (whole_out out) ook.old }
{
    let b = EndedCore { train: t, out };
    if on && r.run_len > p.long_steps {
        b.end_train(high, ook).then(Next::IdleAt(e))
    } else if is_gone(on, r, a) {
        wait(p, r.run_len, a.frames, high, b, ook)
    } else {
        b.then(Next::Stay)
    }
}
