// The end of a presence: `end_frame`, `cut_train` and `frame_done` of the Rust.
#![tactic(auto)]

ghost use Rattle.std.specs.Prelude.{◌≡◌, ◌+◌, ◌-◌, ◌*◌, ◌<◌, List, slice_index, Float};
ghost use Rattle.shared.specs.declared.Out.{Out};
ghost use Rattle.frame_end.specs.End.{is_split_of, enough_runs_of, is_frame_of, last_run_of, close_pair_of, widths_in_of, carrier_of, out_of, end_frame_of};
ghost use Rattle.frame_end.specs.Cut.{gap_at_of, keep_next_of, keep_before_of, start_kept_of, cut_train_of};
ghost use Rattle.frame_end.specs.Done.{frame_done_of};
ghost use Rattle.shared.specs.Core.{whole_out};
ghost use Rattle.ook.specs.Core.{whole_ended};
ghost use Rattle.fsk.specs.Core.{whole_frame};
ghost use Rattle.frame_end.specs.Core.{framed_in, whole_body};

use arith::C32;
use fsk::{CandCore, Committed, FrameCore, FrameOf, Levels, Runs};
use ook::{EndedCore, Train};
use shared::{Carrier, OutCore, Settings};

// The frame that a presence was, and its record.
#[derive(Clone, Copy)]
pub struct FramedCore {
    pub frame: FrameCore,
    pub out: OutCore,
}

// Where the pulses before a frame end: the time after the last kept one and its gap, how many, and one past the last.
#[derive(Clone, Copy)]
pub struct Kept {
    pub t: f64,
    pub keep: u32,
    pub end: u64,
}

// What the end of a frame may change.
#[derive(Clone, Copy)]
pub struct BodyOf<C, O> {
    pub frame: FrameOf<C>,
    pub train: Train,
    pub frames: u32,
    pub out_ook: O,
    pub out_fsk: O,
}

pub type BodyCore = BodyOf<CandCore, OutCore>;

#[tactic(auto, unfolding(crate::specs::End::is_split_of))]
fn is_split(phase: u32, l: Levels, least: f32) -> bool
    ensures { result ≡ is_split_of phase l.f_hi l.f_lo least }
{
    phase == 1 && l.f_hi - l.f_lo >= least
}

#[tactic(auto, unfolding(crate::specs::End::enough_runs_of, shared::specs::Counts::inc))]
fn enough_runs(runs: u32, has: u32) -> bool
    ensures { result ≡ enough_runs_of runs has }
{
    runs.wrapping_add(1).wrapping_add(has) >= 4
}

#[tactic(auto, unfolding(crate::specs::End::is_frame_of))]
fn is_frame(mode: u32, split: bool, enough: bool) -> bool
    ensures { result ≡ is_frame_of mode split enough }
{
    mode != 0 && (mode == 1 || split && enough)
}

// The last run of the frame is committed, up to end.
#[tactic(auto, unfolding(crate::specs::End::last_run_of))]
fn last_run(max: u32, phase: u32, r: Runs, c: Committed, end: f64, fsk: &mut [u32]) -> Committed
    ensures { (result, fsk.new) ≡ last_run_of max phase r c end fsk.old }
{
    let upper = r.run.level == 1;
    if phase == 0 {
        c.commit(max, true, r.run.t_run, end, fsk)
    } else if r.fsk_has_prev == 1 {
        c.commit(max, !upper, r.run.t_prev, end, fsk)
    } else {
        c.commit(max, upper, r.run.t_run, end, fsk)
    }
}

#[tactic(auto, unfolding(crate::specs::End::close_pair_of, shared::specs::Counts::inc))]
fn close_open(c: Committed, fsk: &mut [u32]) -> Committed
    ensures { (result, fsk.new) ≡ close_pair_of c fsk.old }
{
    if c.fsk_open == 1 {
        c.close_pair(c.f_last, fsk)
    } else {
        c
    }
}

// The first n slots become widths; none where there are not so many. A test of the length, as in shared::put.
#[tactic(auto, unfolding(crate::specs::End::widths_in_of))]
fn widths_in(fsk: &mut [u32], n: usize)
    ensures { fsk.new ≡ widths_in_of n fsk.old }
{
    if n <= fsk.len() {
        grid::fsk_widths(&mut fsk[..n]);
    }
}

#[tactic(auto, unfolding(crate::specs::End::carrier_of))]
fn carrier_of(phase: u32, l: Levels, pac: C32) -> Carrier
    ensures { result ≡ carrier_of phase l.f_hi l.f_lo pac }
{
    if phase == 1 {
        Carrier::Angle(arith::midpoint(l.f_hi, l.f_lo))
    } else {
        Carrier::Vector(pac.re, pac.im)
    }
}

#[tactic(auto, unfolding(crate::specs::End::out_of))]
fn out_of(start: f64, end: f64, c: Committed, high: f32, carrier: Carrier) -> OutCore
    ensures { whole_out result ≡ out_of start end c high carrier }
{
    OutCore {
        index: arith::step_of(start),
        end: arith::step_of(end),
        state: 1,
        cut: u32::from(c.fsk_full == 1),
        pairs: c.fsk_n,
        level: high,
        fsk: 1,
        carrier,
    }
}

// The end of a presence that was a frame; None where it was none.
#[tactic(auto, unfolding(crate::specs::End::end_frame_of))]
pub fn end_frame(
    p: Settings,
    fr: FrameCore,
    high: f32,
    pac: C32,
    start: f64,
    end: f64,
    fsk: &mut [u32],
) -> Option<FramedCore>
    ensures { (cs : List Float) (out : Out) → (framed_in (whole_frame cs fr) out cs result, fsk.new) ≡ end_frame_of p (whole_frame cs fr) high pac start end out fsk.old }
{
    let split = is_split(fr.fsk_phase, fr.levels, p.fsk_split);
    let enough = enough_runs(fr.done.fsk_runs, fr.runs.fsk_has_prev);
    if is_frame(p.mode, split, enough) {
        let ended = last_run(p.max_pulses, fr.fsk_phase, fr.runs, fr.done, end, fsk);
        let done = close_open(ended, fsk);
        widths_in(fsk, 2 * (done.fsk_n as usize));
        let carrier = carrier_of(fr.fsk_phase, fr.levels, pac);
        Some(FramedCore {
            frame: FrameCore { done, ..fr },
            out: out_of(start, end, done, high, carrier),
        })
    } else {
        None
    }
}

// The slot i, and 0 past the end: a lane may count more pulses than there are slots lent, so that its pulses are no pairs of the slice.
fn get(s: &[u32], i: usize) -> u32
    ensures { result ≡ slice_index s.now i }
{
    s.get(i).copied().unwrap_or(0)
}

#[tactic(auto, unfolding(crate::specs::Cut::gap_at_of))]
fn gap_at(ook: &[u32], n: u32, k: u32) -> u32
    ensures { result ≡ gap_at_of ook.now n k }
{
    if k < n {
        get(ook, 2 * (k as usize) + 1)
    } else {
        0
    }
}

#[tactic(auto, unfolding(crate::specs::Cut::keep_next_of))]
fn keep_next(s: Kept, k: u32, pulse: u32, gap: u32) -> Kept
    requires { k < 4294967295 }
    ensures { result ≡ keep_next_of s k pulse gap }
{
    let w = f64::from(pulse);
    let g = f64::from(gap);
    Kept {
        t: s.t + (w + g),
        keep: k + 1,
        end: arith::step_of(s.t + w),
    }
}

#[tactic(auto, unfolding(crate::specs::Cut::start_kept_of))]
fn start_kept(from: u64) -> Kept
    ensures { result ≡ start_kept_of from }
{
    Kept {
        t: std::num::nearest_u64_to_f64(from),
        keep: 0,
        end: from,
    }
}

// The pulses that start before limit. A loop that breaks: by `try_fold` both its ends, `Ok` and `Err`, would hold the same struct.
fn keep_before(ook: &[u32], n: u32, total: u32, from: u64, limit: f64) -> Kept
    ensures { result ≡ keep_before_of ook.now n total from limit }
{
    let mut s = start_kept(from);
    for k in 0..total {
        if s.t >= limit {
            break;
        }
        s = keep_next(s, k, get(ook, 2 * (k as usize)), gap_at(ook, n, k));
    }
    s
}

// A frame began at start: the pulses before it end as a train of their own, and the others are dropped.
#[tactic(auto, unfolding(crate::specs::Cut::cut_train_of))]
pub fn cut_train(t: Train, high: f32, out: OutCore, start: f64, ook: &mut [u32]) -> EndedCore
    ensures { (whole_ended result, ook.new) ≡ cut_train_of t high (whole_out out) start ook.old }
{
    let total = t.ook_n.wrapping_add(t.open);
    let k = keep_before(ook, t.ook_n, total, t.start, start - 2.0);
    if k.keep == 0 {
        return EndedCore {
            train: t.emptied(),
            out,
        };
    }
    let kept = Train {
        ook_n: k.keep.saturating_sub(1),
        open: 1,
        pulse_end: k.end,
        ..t
    };
    EndedCore { train: kept, out }.end_train(high, ook)
}

// The end of a presence: where it was a frame it counts, and in Auto mode it cuts the train of pulses.
#[tactic(auto, unfolding(crate::specs::Done::frame_done_of, shared::specs::Counts::sat_add_of))]
pub fn frame_done(
    p: Settings,
    b: BodyCore,
    high: f32,
    pac: C32,
    start: f64,
    end: f64,
    ook: &mut [u32],
    fsk: &mut [u32],
) -> BodyCore
    ensures { (cs : List Float) → (whole_body cs result, ook.new, fsk.new) ≡ frame_done_of p (whole_body cs b) high pac start end ook.old fsk.old }
{
    let Some(f) = end_frame(p, b.frame, high, pac, start, end, fsk) else {
        return b;
    };
    let counted = BodyCore {
        frame: f.frame,
        frames: b.frames.saturating_add(1),
        out_fsk: f.out,
        ..b
    };
    if p.mode != 2 {
        return counted;
    }
    let cut = cut_train(b.train, high, b.out_ook, start, ook);
    BodyCore {
        train: cut.train,
        out_ook: cut.out,
        ..counted
    }
}
