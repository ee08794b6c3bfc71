// The presence machine of the modes FSK and Auto: `presence` of the Rust, and what `begin_run` does to it.
#![tactic(auto)]

ghost use Rattle.std.specs.Prelude.{◌≡◌, ◌+◌, ◌*◌, ◌-◌, ◌<◌, List, Float};
ghost use Rattle.presence.specs.Move.{pres_thr_of, move_pres_of, extend_of, move_frame_of};
ghost use Rattle.presence.specs.Presence.{slice_if_of, ends_of, in_window_of, end_of, end_if_of, end_carrier_of, carrier_if_of, advance_of, presence_of, near_start_of, snap_of};
ghost use Rattle.run.specs.Run.{edge_at};
ghost use Rattle.fsk.specs.Core.{whole_frame};
ghost use Rattle.frame_end.specs.Core.{whole_body};
ghost use Rattle.presence.specs.Core.{whole_advanced, whole_present, whole_snapped};

use arith::C32;
use frame_end::{BodyCore, BodyOf};
use fsk::{CandCore, FrameCore, FrameOf};
use ook::EndedCore;
use run::{Crossing, Move, Run};
use shared::{Next, OutCore, Settings};

// The run of the presence, which is high while the envelope is above the trigger, and the trigger as a factor of the noise.
#[derive(Clone, Copy, Default)]
pub struct Pres {
    pub run: Run,
    pub p_factor: f32,
}

// What the presence machine reads beside its own state. The level is the number of the envelope's run, since the
// definitions (`inputs_of`, `end_of`) hand it on and test it as one. It goes with the settings through six functions: they in it, at the
// same speed, would be one parameter less, and `a.p.min_steps` for `p.min_steps` here and in each definition and law of a presence.
#[derive(Clone, Copy)]
pub struct Inputs {
    pub idx: u64,
    pub noise: f32,
    pub e: f32,
    pub ep: f32,
    pub d: C32,
    pub high: f32,
    pub pac: C32,
    pub level: u32,
    pub c_run: f64,
}

// Whether the carrier is on, its presence, and the frame.
#[derive(Clone, Copy)]
pub struct AdvancedOf<C> {
    pub on: bool,
    pub pres: Pres,
    pub frame: FrameOf<C>,
}

pub type AdvancedCore = AdvancedOf<CandCore>;

// What the sample asks for, the presence, and what the end of a frame may have changed.
#[derive(Clone, Copy)]
pub struct PresentOf<C, O> {
    pub next: Next,
    pub pres: Pres,
    pub body: BodyOf<C, O>,
}

pub type PresentCore = PresentOf<CandCore, OutCore>;

// The trigger, an eighth below where the carrier is present and an eighth above where it is not.
#[tactic(auto, unfolding(crate::specs::Move::pres_thr_of))]
fn pres_thr(up: bool, noise: f32, factor: f32) -> f32
    ensures { result ≡ pres_thr_of up noise factor }
{
    if up {
        noise * factor * 0.875
    } else {
        noise * factor * 1.125
    }
}

// The run of the presence after a sample of this level.
#[tactic(auto, unfolding(crate::specs::Move::move_pres_of))]
fn move_pres(m: Move, s: Pres, level: u32, c: Crossing) -> Pres
    ensures { result ≡ move_pres_of m s level (edge_at c) }
{
    Pres {
        run: s.run.moved(m, level, c),
        ..s
    }
}

// The carrier was away only for a glitch: the frequency run goes on through those samples. Changed in place, here, in end_carrier and in
// snap: the field is two or three structs down, and `..` at each level is no plainer.
#[tactic(auto, unfolding(crate::specs::Move::extend_of, shared::specs::Counts::sat_add_of))]
fn extend(mut fr: FrameCore, n: u32) -> FrameCore
    ensures { (cs : List Float) → whole_frame cs result ≡ extend_of (whole_frame cs fr) n }
{
    fr.runs.run.run_len = fr.runs.run.run_len.saturating_add(n);
    fr
}

// What the move of the presence does to the frame: an absence of n samples that was a glitch extends its run, and a presence that
// begins begins a frame.
fn move_frame(m: Move, on: bool, n: u32, c: Crossing, fr: FrameCore) -> FrameCore
    ensures { (cs : List Float) → whole_frame cs result ≡ move_frame_of m on n (edge_at c) (whole_frame cs fr) }
{
    match m {
        Move::Glitch if on => extend(fr, n),
        Move::Begins if on => fsk::begin_frame(fr, c.edge_at()),
        _ => fr,
    }
}

// An early return: as an if-expression this takes 7 % more instructions on an FSK stream, `end_if` and `carrier_if` together 14 %.
#[tactic(auto, unfolding(crate::specs::Presence::slice_if_of))]
fn slice_if(
    p: Settings,
    a: Inputs,
    on: bool,
    fr: FrameCore,
    cs: &mut [f32; 8],
    fsk: &mut [u32],
) -> FrameCore
    ensures { (whole_frame cs.new result, fsk.new) ≡ slice_if_of p a on (whole_frame cs.old fr) fsk.old }
{
    if on {
        return fsk_sample::fsk_sample(p, fr, a.high, a.d, a.e, a.idx, cs, fsk);
    }
    fr
}

// The first half: the level, the run of the presence, the frame, and the slicer's sample.
#[tactic(auto, unfolding(crate::specs::Presence::advance_of, fsk_sample::specs::Tone::upper_of, run::specs::Run::is_high_of, run::specs::Run::edge_at))]
fn advance(
    p: Settings,
    a: Inputs,
    s: Pres,
    fr: FrameCore,
    cs: &mut [f32; 8],
    fsk: &mut [u32],
) -> AdvancedCore
    ensures { (whole_advanced cs.new result, fsk.new) ≡ advance_of p a s (whole_frame cs.old fr) fsk.old }
{
    let r = s.run;
    let up = r.level == 1;
    let thr = pres_thr(up, a.noise, s.p_factor);
    let on = run::is_high(up, a.e, thr);
    let level = u32::from(on);
    let c = Crossing {
        idx: a.idx,
        before: a.ep,
        at: a.e,
        thr,
    };
    let m = r.meets(level);
    let pres = move_pres(m, s, level, c);
    let moved = move_frame(m, on, r.run_len, c, fr);
    let frame = slice_if(p, a, on, moved, cs, fsk);
    AdvancedCore { on, pres, frame }
}

#[tactic(auto, unfolding(crate::specs::Presence::ends_of))]
fn ends_of(due: bool, on: bool, prev: u32, min_steps: u32) -> bool
    ensures { result ≡ ends_of due on prev min_steps }
{
    // One test in the other: by `&&` an FSK stream takes 9.6 % more instructions.
    if due {
        if on {
            return false;
        }
        return prev >= min_steps;
    }
    false
}

// How many steps inside a frame an edge of the envelope may lie to replace the presence's.
const EDGE_WINDOW: f64 = 4.0;

#[tactic(auto, unfolding(crate::specs::Presence::in_window_of))]
fn in_window(x: f64) -> bool
    ensures { result ≡ in_window_of x }
{
    0.0 <= x && x <= EDGE_WINDOW
}

// Where the envelope fell right before, its edge tells the frame's end better than presence does.
#[tactic(auto, unfolding(crate::specs::Presence::end_of))]
fn end_of(level: u32, c_run: f64, end: f64) -> f64
    ensures { result ≡ end_of level c_run end }
{
    if level == 0 && in_window(end - c_run) {
        c_run
    } else {
        end
    }
}

#[tactic(auto, unfolding(crate::specs::Presence::end_if_of))]
fn end_if(
    ends: bool,
    p: Settings,
    a: Inputs,
    q: Run,
    b: BodyCore,
    ook: &mut [u32],
    fsk: &mut [u32],
) -> BodyCore
    ensures { (cs : List Float) → (whole_body cs result, ook.new, fsk.new) ≡ end_if_of ends p a q (whole_body cs b) ook.old fsk.old }
{
    if ends {
        let end = end_of(a.level, a.c_run, q.t_run);
        // Copies, here and in carrier_if: without them an FSK stream takes 29 % more instructions.
        let k = p;
        let c = b;
        return frame_end::frame_done(k, c, a.high, a.pac, q.t_prev, end, ook, fsk);
    }
    b
}

// A carrier: the frame so far is kept, cut, and the train ends too.
#[tactic(auto, unfolding(crate::specs::Presence::end_carrier_of))]
fn end_carrier(
    p: Settings,
    a: Inputs,
    t_run: f64,
    mut b: BodyCore,
    ook: &mut [u32],
    fsk: &mut [u32],
) -> BodyCore
    ensures { (cs : List Float) → (whole_body cs result, ook.new, fsk.new) ≡ end_carrier_of p a t_run (whole_body cs b) ook.old fsk.old }
{
    b.frame.done.fsk_full = 1;
    let end = std::num::nearest_u64_to_f64(a.idx) + 1.0;
    let n = frame_end::frame_done(p, b, a.high, a.pac, t_run, end, ook, fsk);
    let kept = EndedCore {
        train: n.train,
        out: n.out_ook,
    };
    let e = kept.end_train(a.high, ook);
    BodyCore {
        train: e.train,
        out_ook: e.out,
        ..n
    }
}

#[tactic(auto, unfolding(crate::specs::Presence::carrier_if_of, crate::specs::Presence::long_of))]
fn carrier_if(
    p: Settings,
    a: Inputs,
    on: bool,
    s: Pres,
    b: BodyCore,
    ook: &mut [u32],
    fsk: &mut [u32],
) -> PresentCore
    ensures { (cs : List Float) → (whole_present cs result, ook.new, fsk.new) ≡ carrier_if_of p a on s (whole_body cs b) ook.old fsk.old }
{
    if on && s.run.run_len > p.long_steps {
        // Copies, as in end_if.
        let c = b;
        let q = p;
        return PresentCore {
            next: Next::IdleAt(a.e),
            pres: s,
            body: end_carrier(q, a, s.run.t_run, c, ook, fsk),
        };
    }
    PresentCore {
        next: Next::Stay,
        pres: s,
        body: b,
    }
}

// One sample of the presence machine, and of the frame where the carrier is present: what it asks for, the presence, and the body.
#[tactic(auto, unfolding(crate::specs::Presence::presence_of))]
pub fn presence(
    p: Settings,
    a: Inputs,
    s: Pres,
    b: BodyCore,
    cs: &mut [f32; 8],
    ook: &mut [u32],
    fsk: &mut [u32],
) -> PresentCore
    ensures { (whole_present cs.new result, ook.new, fsk.new) ≡ presence_of p a s (whole_body cs.old b) ook.old fsk.old }
{
    let fr = b.frame;
    let l = advance(p, a, s, fr, cs, fsk);
    let run = l.pres.run;
    let body = BodyCore {
        frame: l.frame,
        ..b
    };
    let due = run.due(p.min_steps);
    let ends = ends_of(due, l.on, run.prev_len, p.min_steps);
    let sure = Pres {
        run: run.confirm_if(due),
        ..l.pres
    };
    let ended = end_if(ends, p, a, run, body, ook, fsk);
    carrier_if(p, a, l.on, sure, ended, ook, fsk)
}

// The presence and the frame with their start.
#[derive(Clone, Copy)]
pub struct SnappedOf<C> {
    pub pres: Pres,
    pub frame: FrameOf<C>,
}

pub type SnappedCore = SnappedOf<CandCore>;

// `begin_run` of the envelope, at a rise: a frame that presence has only just begun starts at the envelope's edge instead.
#[tactic(auto, unfolding(crate::specs::Presence::snap_of))]
pub fn snap(mut s: Pres, mut fr: FrameCore, tc: f64) -> SnappedCore
    ensures { (cs : List Float) → whole_snapped cs result ≡ snap_of s (whole_frame cs fr) tc }
{
    let lead = tc - s.run.t_run;
    if near_start(s.run.level, fr.fsk_phase, fr.done.fsk_runs, lead) {
        s.run.t_run = tc;
        fr.runs.run.t_run = tc;
    }
    SnappedCore { pres: s, frame: fr }
}

#[tactic(auto, unfolding(crate::specs::Presence::near_start_of))]
fn near_start(level: u32, phase: u32, runs: u32, lead: f64) -> bool
    ensures { result ≡ near_start_of level phase runs lead }
{
    level == 1 && phase == 0 && runs == 0 && in_window(lead)
}
