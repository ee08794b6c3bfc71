// One sample of a burst in all three modes: `sample` of the Rust, and the replay of the lead-in.
#![tactic(auto)]

ghost use Rattle.std.specs.Prelude.{◌≡◌, ◌<◌, ℕ, List, length, Float};
ghost use Rattle.burst.specs.Makers.{body_in, with_acted, with_body, done_in};
ghost use Rattle.burst.specs.Sample.{snap_if_of, inputs_of, rest_of, sample_of};
ghost use Rattle.burst.specs.Lead.{largest_of, begin_burst_of};
ghost use Rattle.burst.specs.Core.{whole_burst, whole_sampled, beside_of, samples_of};
ghost use Rattle.fsk.specs.Core.{whole_frame};
ghost use Rattle.ook.specs.Core.{whole_done};
ghost use Rattle.envelope.specs.Core.{whole_acted};
ghost use Rattle.frame_end.specs.Core.{whole_body};
ghost use Rattle.presence.specs.Core.{whole_snapped};

use arith::C32;
use envelope::{Absence, ActedCore, At, Seen};
use frame_end::BodyCore;
use fsk::{Cand, CandCore, FrameCore, FrameOf};
use ook::{DoneCore, Env, Train};
use presence::{Inputs, Pres, SnappedCore};
use run::Run;
use shared::{Next, Out, OutCore, Settings};

// The burst under way; what an earlier burst left stands in it too.
#[derive(Clone, Copy, Default)]
pub struct BurstOf<C, O> {
    pub high: f32,
    pub e_prev: f32,
    pub env: Env,
    pub pac: C32,
    pub train: Train,
    pub out_ook: O,
    pub frames: u32,
    pub pres: Pres,
    pub frame: FrameOf<C>,
    pub out_fsk: O,
}

pub type Burst = BurstOf<Cand, Out>;

pub type BurstCore = BurstOf<CandCore, OutCore>;

// The lead-in: its samples wait until there are lead_len of them; lead_x[0] is the sample before. The count lead_n is a lane's number,
// as in shared::Settings.
#[derive(Clone, Copy, Default)]
pub struct Lead {
    pub lead_at: u64,
    pub lead_n: u32,
    pub lead_e: [f32; 16],
    pub lead_x: [C32; 17],
}

// What the sample asks for, and the burst after it.
#[derive(Clone, Copy)]
pub struct SampledOf<C, O> {
    pub next: Next,
    pub burst: BurstOf<C, O>,
}

pub type SampledCore = SampledOf<CandCore, OutCore>;

// A run of the envelope that began at tc, with a rise, may give presence and frame their start.
#[tactic(auto, unfolding(crate::specs::Sample::snap_if_of))]
fn snap_if(began: bool, on: bool, tc: f64, pres: Pres, frame: FrameCore) -> SnappedCore
    ensures { (cs : List Float) → whole_snapped cs result ≡ snap_if_of began on tc pres (whole_frame cs frame) }
{
    if began && on {
        presence::snap(pres, frame, tc)
    } else {
        SnappedCore { pres, frame }
    }
}

// What presence reads: this sample, and the burst after the confirmation.
fn inputs_of(a: At, ep: f32, s: Seen, b: BurstCore) -> Inputs
    ensures { (cs : List Float) → result ≡ inputs_of a ep s (whole_burst cs b) }
{
    Inputs {
        idx: a.idx,
        noise: a.noise,
        e: a.e,
        ep,
        d: s.d,
        high: s.high,
        pac: s.pac,
        level: b.env.run.level,
        c_run: b.env.c_run,
    }
}

impl BurstCore {
    // What the end of a frame may change, read out and put back. The burst has no struct for it: the definitions of a lane, of pulses and
    // of calls name a burst's train, frame and records as the lane of document 01 does, each a field of its own.
    fn body(self) -> BodyCore
        ensures { (cs : List Float) → whole_body cs result ≡ body_in (whole_burst cs self) }
    {
        BodyCore {
            frame: self.frame,
            train: self.train,
            frames: self.frames,
            out_ook: self.out_ook,
            out_fsk: self.out_fsk,
        }
    }

    fn with_present(self, pres: Pres, q: BodyCore) -> BurstCore
        ensures { (old cs : List Float) → whole_burst cs result ≡ with_body pres (whole_body cs q) (whole_burst old self) }
    {
        BurstCore {
            pres,
            frame: q.frame,
            train: q.train,
            frames: q.frames,
            out_ook: q.out_ook,
            out_fsk: q.out_fsk,
            ..self
        }
    }

    // After the confirmation of a run.
    fn with_acted(self, e: f32, s: Seen, n: SnappedCore, d: ActedCore) -> BurstCore
        ensures { (cs : List Float) → whole_burst cs result ≡ with_acted e s (whole_snapped cs n) (whole_acted d) (whole_burst cs self) }
    {
        BurstCore {
            high: s.high,
            e_prev: e,
            env: d.env,
            pac: s.pac,
            train: d.train,
            out_ook: d.out,
            pres: n.pres,
            frame: n.frame,
            ..self
        }
    }

    // After a carrier or the end of the burst.
    fn with_done(self, d: DoneCore) -> SampledCore
        ensures { (cs : List Float) → whole_sampled cs result ≡ done_in (whole_burst cs self) (whole_done d) }
    {
        SampledCore {
            next: d.next,
            burst: BurstCore {
                train: d.train,
                out_ook: d.out,
                ..self
            },
        }
    }
}

// Presence, of which there is none in OOK mode; ep is the envelope before this sample.
#[tactic(auto, unfolding(crate::specs::Core::beside_of))]
fn present(
    p: Settings,
    a: At,
    ep: f32,
    s: Seen,
    b: BurstCore,
    cs: &mut [f32; 8],
    ook: &mut [u32],
    fsk: &mut [u32],
) -> SampledCore
    ensures { (whole_sampled cs.new result, ook.new, fsk.new) ≡ beside_of p a ep s (whole_burst cs.old b) ook.old fsk.old }
{
    if p.mode == 0 {
        return SampledCore {
            next: Next::Stay,
            burst: b,
        };
    }
    let inputs = inputs_of(a, ep, s, b);
    let r = presence::presence(p, inputs, b.pres, b.body(), cs, ook, fsk);
    SampledCore {
        next: r.next,
        burst: b.with_present(r.pres, r.body),
    }
}

// Presence, and then the end of the burst, unless presence has ended it.
fn rest(
    p: Settings,
    a: At,
    ep: f32,
    s: Seen,
    b: BurstCore,
    cs: &mut [f32; 8],
    ook: &mut [u32],
    fsk: &mut [u32],
) -> SampledCore
    ensures { (whole_sampled cs.new result, ook.new, fsk.new) ≡ rest_of p a ep s (whole_burst cs.old b) ook.old fsk.old }
{
    let w = present(p, a, ep, s, b, cs, ook, fsk);
    if !w.next.is_stay() {
        return w;
    }
    let n = w.burst;
    let absence = Absence {
        frames: n.frames,
        p_level: n.pres.run.level,
        p_confirmed: n.pres.run.confirmed,
    };
    let d = envelope::tail(
        p, s.on, a.e, n.env.run, absence, n.high, n.train, n.out_ook, ook,
    );
    n.with_done(d)
}

// One sample of a burst: the envelope's run, the train of pulses, and then the rest. The buffers are lent to it and to what it calls one
// by one, as at step::Core.
pub fn sample(
    p: Settings,
    a: At,
    ring: &[f32; 32],
    b: BurstCore,
    cs: &mut [f32; 8],
    ook: &mut [u32],
    fsk: &mut [u32],
) -> SampledCore
    ensures { (whole_sampled cs.new result, ook.new, fsk.new) ≡ sample_of p a ring.now (whole_burst cs.old b) ook.old fsk.old }
{
    let s = envelope::see(p, a, ring, b.high, b.e_prev, b.env, b.pac);
    let n = snap_if(s.began, s.on, s.env.c_run, b.pres, b.frame);
    let d = envelope::act(p, s, b.train, b.out_ook, ook);
    let burst = b.with_acted(a.e, s, n, d);
    if d.next.is_stay() {
        rest(p, a, b.e_prev, s, burst, cs, ook, fsk)
    } else {
        SampledCore {
            next: d.next,
            burst,
        }
    }
}

// The largest of the envelopes, at least +0.
pub fn largest(es: &[f32]) -> f32
    ensures { result ≡ largest_of es.now (length es.now) }
{
    es.iter()
        .fold(0.0, |m: f32, &v: &f32| if v > m { v } else { m })
}

// A burst starts at t; it has no pulse yet.
#[tactic(auto, unfolding(crate::specs::Lead::begin_burst_of))]
pub fn begin_burst(high: f32, t: f64, e: f32, b: BurstCore) -> BurstCore
    ensures { (cs : List Float) → whole_burst cs result ≡ begin_burst_of high t e (whole_burst cs b) }
{
    BurstCore {
        high,
        e_prev: e,
        env: ook::begin_env(t, b.env),
        pac: C32::default(),
        train: b.train.emptied(),
        frames: 0,
        pres: Pres {
            run: Run::start_run(t),
            ..b.pres
        },
        ..b
    }
}

// The n samples of a call, of which the i-th reads read(i), up to the first whose answer is not stay.
pub fn samples<F: Fn(usize) -> At>(
    p: Settings,
    read: F,
    n: usize,
    ring: &[f32; 32],
    b: BurstCore,
    cs: &mut [f32; 8],
    ook: &mut [u32],
    fsk: &mut [u32],
) -> SampledCore
    requires { (i : ℕ) → i < n → F.pre read i }
    ensures { (at : ℕ → At) → ((i : ℕ) (a : At) → i < n → F.post read i a → a ≡ at i) → (whole_sampled cs.new result, ook.new, fsk.new) ≡ samples_of p at ring.now n (whole_burst cs.old b) ook.old fsk.old }
{
    let mut w = SampledCore {
        next: Next::Stay,
        burst: b,
    };
    for i in 0..n {
        w = sample(p, read(i), ring, w.burst, cs, ook, fsk);
        if !w.next.is_stay() {
            break;
        }
    }
    w
}
