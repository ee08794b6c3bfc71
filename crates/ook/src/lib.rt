// The OOK part of the lane: the run of the envelope, its refined edges, and the train of its pulses,
// each struct by value.
#![tactic(auto)]

ghost use Rattle.std.specs.Prelude.{◌≡◌, ◌+◌, ◌*◌, ◌-◌, ◌<◌, min, max};
ghost use Rattle.run.specs.Run.{edge_at};
ghost use Rattle.shared.specs.Core.{whole_out};
ghost use Rattle.ook.specs.Core.{whole_ended, whole_done};
ghost use Rattle.ook.specs.Run.{advance_of, zero_if, pac_run_of, begin_env_of};
ghost use Rattle.ook.specs.Refine.{refine_level_of, refine_lo_of, excess_of, best_split_of, refine_in_of, refine_of};
ghost use Rattle.ook.specs.Train.{push_pulse_of, close_gap_of, empty_train_of, finish_of, end_train_of, pulse_done_of, gap_ratio_exceeded_of};

use arith::{C32, Steps};
use run::{Crossing, Move, Run};
use shared::{Carrier, Next, Out, OutCore, Settings};

// ---- what the run and the train are

// The run of the envelope (flags are numbers, as in shared::Settings), whose edge t_run is refined once the run is long enough, and what
// that needs.
#[derive(Clone, Copy, Default)]
pub struct Env {
    pub run: Run,
    // The edges of the run and of the one before as the envelope crossed: by them a train starts and ends, refined or not.
    pub c_run: f64,
    pub c_prev: f64,
    // The sample at which the envelope crossed, and 1 while the edge waits for its refinement.
    pub ref_idx: u64,
    pub ref_pending: u32,
}

// The train of the pulses so far (flags and counts are numbers, as in shared::Settings); origin is the first pulse's edge, bound the last
// boundary in 64ths of a step after it.
#[derive(Clone, Copy, Default)]
pub struct Train {
    pub start: u64,
    pub pulse_end: u64,
    pub started: u32,
    pub ook_n: u32,
    pub open: u32,
    pub longest: Steps,
    pub truncated: u32,
    pub acc: C32,
    pub origin: f64,
    pub bound: u64,
}

// Whether a pulse had room, and the train. As a Result both arms would be the same struct, and `pulse_done` puts the train beside the record
// before it asks which.
#[derive(Clone, Copy)]
pub struct Pushed {
    pub fits: bool,
    pub train: Train,
}

// The train and the record beside it, as one stage hands them to the next: the record a caller's (`Ended`), or the core's (`EndedCore`). Each
// pair of names below, and in the crates above, is likewise one struct over the type in which the two differ.
#[derive(Clone, Copy)]
pub struct EndedOf<O> {
    pub train: Train,
    pub out: O,
}

pub type Ended = EndedOf<Out>;

pub type EndedCore = EndedOf<OutCore>;

// What a stage asks for, the train after it, and the record.
#[derive(Clone, Copy)]
pub struct DoneOf<O> {
    pub next: Next,
    pub train: Train,
    pub out: O,
}

pub type Done = DoneOf<Out>;

pub type DoneCore = DoneOf<OutCore>;

// ---- the run of the envelope

// The run after a sample whose level is `on`: a glitch takes its edge back, and the edge of a run that begins waits for its refinement.
#[tactic(auto, unfolding(crate::specs::Run::advance_of, run::specs::Run::begin_run_of))]
pub fn advance(m: Move, env: Env, on: bool, c: Crossing) -> Env
    ensures { result ≡ advance_of m env on (edge_at c) c.idx }
{
    match m {
        Move::Same => Env {
            run: env.run.lengthen(),
            ..env
        },
        Move::Glitch => Env {
            run: env.run.rejoin(u32::from(on)),
            c_run: env.c_prev,
            ref_pending: 0,
            ..env
        },
        Move::Begins => {
            let tc = c.edge_at();
            Env {
                run: env.run.begin_run(u32::from(on), tc),
                c_run: tc,
                c_prev: env.c_run,
                ref_idx: c.idx,
                ref_pending: 1,
            }
        }
    }
}

#[tactic(auto, unfolding(crate::specs::Run::zero_if))]
fn zero_if(b: bool, pac: C32) -> C32
    ensures { result ≡ zero_if b pac }
{
    if b { C32::default() } else { pac }
}

// The pulse's sum: a short pulse leaves nothing, and a pulse that begins starts from 0.
pub fn pac_run(m: Move, on: bool, pac: C32) -> C32
    ensures { result ≡ pac_run_of m on pac }
{
    match m {
        Move::Same => pac,
        Move::Glitch => zero_if(!on, pac),
        Move::Begins => zero_if(on, pac),
    }
}

// A burst begins at the time t; ref_idx and ref_pending stay as an earlier one left them, as in the Rust.
#[tactic(auto, unfolding(crate::specs::Run::begin_env_of))]
pub fn begin_env(t: f64, env: Env) -> Env
    ensures { result ≡ begin_env_of t env }
{
    Env {
        run: Run::start_run(t),
        c_run: t,
        c_prev: t,
        ..env
    }
}

// ---- the refinement of an edge

// The noise's part in the level of half the signal: 3/4 of its power, which is 4/pi of the square of its mean envelope.
const NOISE_POWER: f32 = 0.95492965;

// Half the signal's amplitude over the noise: the midpoint of an edge, which the noise does not move towards the plateau.
#[tactic(auto, unfolding(crate::specs::Refine::refine_level_of))]
pub fn refine_level(high: f32, noise: f32) -> f32
    ensures { result ≡ refine_level_of high noise }
{
    root::sqrt(0.25 * high * high + NOISE_POWER * noise * noise)
}

// Where the search starts: a few samples before the crossing and after the edge before, in the burst, and in the ring.
#[tactic(auto, unfolding(crate::specs::Refine::refine_lo_of))]
pub fn refine_lo(min_steps: u32, ref_idx: u64, lead_at: u64, idx: u64) -> u64
    ensures { result ≡ refine_lo_of min_steps ref_idx lead_at idx }
{
    let back = 6.min(u64::from(min_steps).saturating_sub(1));
    ref_idx
        .saturating_sub(back)
        .max(lead_at.saturating_sub(7))
        .max(idx.saturating_sub(31))
}

// What a sample adds to the sum of those after the edge: how far it is on their side of the level.
#[tactic(auto, unfolding(crate::specs::Refine::excess_of))]
fn excess(on: bool, m: f32, t: f32) -> f32
    ensures { result ≡ excess_of on m t }
{
    if on { m - t } else { -(m - t) }
}

// The split that gives the samples after it the largest sum: the change point of a step at the level.
fn best_split(ring: &[f32; 32], t: f32, on: bool, lo: u64, idx: u64) -> u64
    requires { lo < idx }
    ensures { result ≡ best_split_of ring.now t on lo idx }
{
    let mut sum: f32 = 0.0;
    let mut best: f32 = f32::NEG_INFINITY;
    let mut split = idx;
    for j in (lo + 1..=idx).rev() {
        sum += excess(on, ring[(j % 32) as usize], t);
        if sum > best {
            best = sum;
            split = j;
        }
    }
    split
}

// The crossing at the split; an empty window leaves the edge as it was.
#[tactic(auto, unfolding(crate::specs::Refine::refine_in_of))]
fn refine_in(ring: &[f32; 32], t: f32, on: bool, lo: u64, idx: u64, t_run: f64) -> f64
    ensures { result ≡ refine_in_of ring.now t on lo idx t_run }
{
    if idx <= lo {
        t_run
    } else {
        let s = best_split(ring, t, on, lo, idx);
        let i = (s % 32) as usize;
        let k = (s.saturating_sub(1) % 32) as usize;
        arith::edge(s, arith::cross(ring[k], ring[i], t))
    }
}

// The edge found again in the envelopes around it, since the low-pass delays the crossing.
#[tactic(auto, unfolding(crate::specs::Refine::refine_of))]
pub fn refine(
    ring: &[f32; 32],
    min_steps: u32,
    high: f32,
    noise: f32,
    on: bool,
    lead_at: u64,
    idx: u64,
    s: Env,
) -> f64
    ensures { result ≡ refine_of ring.now min_steps high noise on lead_at idx s }
{
    let t = refine_level(high, noise);
    let lo = refine_lo(min_steps, s.ref_idx, lead_at, idx);
    refine_in(ring, t, on, lo, idx, s.run.t_run)
}

// ---- the train

impl Train {
    // A full train takes no pulse and is marked; else the pulse goes into its slot and waits for its gap.
    #[tactic(auto, unfolding(crate::specs::Train::push_pulse_of))]
    pub fn push_pulse(self, max_pulses: u32, pac: C32, len: Steps, ook: &mut [u32]) -> Pushed
        ensures { (result, ook.new) ≡ push_pulse_of max_pulses self pac len ook.old }
    {
        if self.ook_n >= max_pulses {
            Pushed {
                fits: false,
                train: Train {
                    truncated: 1,
                    ..self
                },
            }
        } else {
            shared::put(ook, 2 * (self.ook_n as usize), len.0);
            Pushed {
                fits: true,
                train: Train {
                    open: 1,
                    acc: self.acc.plus(pac),
                    ..self
                },
            }
        }
    }

    // The gap of the pulse that waits: the pair is whole.
    #[tactic(auto, unfolding(crate::specs::Train::close_gap_of, shared::specs::Counts::inc))]
    pub fn close_gap(self, gap: Steps, ook: &mut [u32]) -> Train
        ensures { (result, ook.new) ≡ close_gap_of self gap ook.old }
    {
        if self.open == 1 {
            shared::put(ook, 2 * (self.ook_n as usize) + 1, gap.0);
            Train {
                ook_n: self.ook_n.wrapping_add(1),
                open: 0,
                ..self
            }
        } else {
            self
        }
    }

    // No pulses; start and pulse_end stay, as in the Rust.
    #[tactic(auto, unfolding(crate::specs::Train::empty_train_of))]
    pub fn emptied(self) -> Train
        ensures { result ≡ empty_train_of self }
    {
        Train {
            start: self.start,
            pulse_end: self.pulse_end,
            ..Train::default()
        }
    }
}

impl<O> EndedOf<O> {
    // What the call asks for now.
    pub fn then(self, next: Next) -> DoneOf<O>
        ensures { result ≡ record { next = next; train = self.train; out = self.out } }
    {
        DoneOf {
            next,
            train: self.train,
            out: self.out,
        }
    }
}

impl EndedOf<OutCore> {
    // Pairs make a record, and the train is empty then.
    #[tactic(auto, unfolding(crate::specs::Train::finish_of))]
    fn finish(self, high: f32) -> EndedCore
        ensures { whole_ended result ≡ finish_of self.train high (whole_out self.out) }
    {
        let t = self.train;
        let out = if t.ook_n > 0 {
            OutCore {
                index: t.start,
                end: t.pulse_end,
                state: 1,
                cut: u32::from(t.truncated == 1),
                pairs: t.ook_n,
                level: high,
                fsk: 0,
                carrier: Carrier::Vector(t.acc.re, t.acc.im),
            }
        } else {
            self.out
        };
        EndedCore {
            train: t.emptied(),
            out,
        }
    }

    // The train ends: a pulse that waits gets the gap 0.
    #[tactic(auto, unfolding(crate::specs::Train::end_train_of))]
    pub fn end_train(self, high: f32, ook: &mut [u32]) -> EndedCore
        ensures { (whole_ended result, ook.new) ≡ end_train_of self.train high (whole_out self.out) ook.old }
    {
        EndedCore {
            train: self.train.close_gap(Steps(0), ook),
            ..self
        }
        .finish(high)
    }

    // A pulse is final. In FSK mode it is not kept: frames alone are asked for there. A train that has no room for it ends.
    #[tactic(auto, unfolding(crate::specs::Train::pulse_done_of))]
    pub fn pulse_done(
        self,
        p: Settings,
        pac: C32,
        high: f32,
        len: Steps,
        end: f64,
        ook: &mut [u32],
    ) -> DoneCore
        ensures { (whole_done result, ook.new) ≡ pulse_done_of p self.train pac high (whole_out self.out) len end ook.old }
    {
        let t = Train {
            pulse_end: arith::step_of(end),
            ..self.train
        };
        if p.mode == 1 {
            EndedCore {
                train: Train { started: 0, ..t },
                ..self
            }
            .then(Next::Stay)
        } else {
            let q = Train {
                longest: t.longest.max(len),
                ..t
            }
            .push_pulse(p.max_pulses, pac, len, ook);
            let e = EndedCore {
                train: q.train,
                ..self
            };
            if q.fits {
                e.then(Next::Stay)
            } else {
                e.end_train(high, ook).then(Next::Idle)
            }
        }
    }
}

// A gap so much longer than the longest pulse ends the train.
#[tactic(auto, unfolding(crate::specs::Train::gap_ratio_exceeded_of))]
pub fn gap_ratio_exceeded(gap_ratio: f32, longest: Steps, n: u32) -> bool
    ensures { result ≡ gap_ratio_exceeded_of gap_ratio longest n }
{
    longest.0 > 0
        && std::num::nearest_u32_to_f32(n) > gap_ratio * std::num::nearest_u32_to_f32(longest.0)
}
