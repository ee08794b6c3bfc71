// The frequency slicer: `fsk_sample` of the Rust.
#![tactic(auto)]

ghost use Rattle.std.specs.Prelude.{◌≡◌, ◌+◌, ◌-◌, ◌*◌, ◌<◌, min, List, Float};
ghost use Rattle.fsk_sample.specs.Tone.{low_pass_of, tone_of, upper_of, follow_of};
ghost use Rattle.fsk_sample.specs.Seek.{seed_of, average_of, start_of, before_if_of, push_cand_of, restart_at_of, restart_early_of, clear_of, far_from_of, store_of};
ghost use Rattle.fsk_sample.specs.Sample.{seek_frame_of, restart_in, away_in, seek_of, fsk_sample_of, track_of};
ghost use Rattle.fsk.specs.Core.{whole_cand, whole_frame};

use arith::C32;
use fsk::{CandCore, Early, FrameCore, Levels, Mean, Tone};
use run::Crossing;
use shared::Settings;

// The least part of the signal level that the gain goes by, so that a fading sample is not blown up.
const AGC_FLOOR: f32 = 0.25;

// The step of a level towards its samples.
const FSK_RATIO: f32 = 0.0625;

#[tactic(auto, unfolding(crate::specs::Tone::low_pass_of))]
fn low_pass(m: f32, a: f32, g: f32, d: f32) -> f32
    ensures { result ≡ low_pass_of m a g d }
{
    arith::flush_denormal(m + a * (g * d - m))
}

#[tactic(auto, unfolding(crate::specs::Tone::tone_of))]
fn tone_of(a: f32, high: f32, d: C32, e: f32, t: Tone) -> Tone
    ensures { result ≡ tone_of a high d e t }
{
    let g = arith::a_gain(arith::max(e, AGC_FLOOR * high));
    let re = low_pass(t.fm.re, a, g, d.re);
    let im = low_pass(t.fm.im, a, g, d.im);
    Tone {
        fm: C32 { re, im },
        f_prev: arith::atan2_fast(im, re),
    }
}

#[tactic(auto, unfolding(crate::specs::Tone::follow_of))]
fn follow(upper: bool, l: Levels, f: f32) -> Levels
    ensures { result ≡ follow_of upper l f }
{
    if upper {
        Levels {
            f_hi: l.f_hi + (f - l.f_hi) * FSK_RATIO,
            ..l
        }
    } else {
        Levels {
            f_lo: l.f_lo + (f - l.f_lo) * FSK_RATIO,
            ..l
        }
    }
}

// The first sample sets the mean.
#[tactic(auto, unfolding(crate::specs::Seek::seed_of))]
fn seed(m: Mean, cand: u32, f: f32) -> Mean
    ensures { result ≡ seed_of m cand f }
{
    if m.fsk_cnt == 0 && cand == 0 {
        Mean { f_ref: f, ..m }
    } else {
        m
    }
}

#[tactic(auto, unfolding(crate::specs::Seek::average_of, shared::specs::Counts::inc))]
fn average(m: Mean, f: f32) -> Mean
    ensures { result ≡ average_of m f }
{
    let k = m.fsk_cnt.wrapping_add(1);
    let n = std::num::nearest_u32_to_f32(k.min(16));
    Mean {
        f_ref: m.f_ref + (f - m.f_ref) / n,
        fsk_cnt: k,
    }
}

// The candidates so far, none where the last ones lay on the other side.
#[tactic(auto, unfolding(crate::specs::Seek::start_of))]
fn start_of(n: u32, side: bool, last: bool) -> u32
    ensures { result ≡ start_of n side last }
{
    if side == last { n } else { 0 }
}

// A place past the end is not written: an index test, as in shared::put. That one, were it generic, would save these three lines and cost
// a law: its promise (slice_set) tests the length, and store_of the number 8.
#[tactic(auto, unfolding(crate::specs::Seek::store_of))]
fn store(cs: &mut [f32; 8], i: usize, f: f32)
    ensures { cs.new ≡ store_of cs.old i f }
{
    if i < 8 {
        cs[i] = f;
    }
}

#[tactic(auto, unfolding(crate::specs::Seek::push_cand_of, crate::specs::Seek::before_if_of, shared::specs::Counts::inc))]
fn push_cand(c: CandCore, f_ref: f32, f: f32, fp: f32, cs: &mut [f32; 8]) -> CandCore
    ensures { whole_cand cs.new result ≡ push_cand_of (whole_cand cs.old c) f_ref f fp }
{
    let side = f - f_ref > 0.0;
    let last = cs[0] > f_ref;
    let n = start_of(c.fsk_cand, side, last);
    store(cs, n as usize, f);
    CandCore {
        cand_before: if n == 0 { fp } else { c.cand_before },
        fsk_cand: n.wrapping_add(1),
    }
}

#[tactic(auto, unfolding(crate::specs::Seek::restart_at_of))]
fn restart_at(before: f32, at: f32, thr: f32, cand: u32, idx: u64) -> f64
    ensures { result ≡ restart_at_of before at thr cand idx }
{
    let first = idx.wrapping_add(1).saturating_sub(u64::from(cand));
    arith::edge(first, arith::cross(before, at, thr))
}

// The samples before a restart may be a short first run.
#[tactic(auto, unfolding(crate::specs::Seek::restart_early_of))]
fn restart_early(e: Early, m: Mean, c: CandCore, f: f32, idx: u64, cs: &[f32; 8]) -> Early
    ensures { result ≡ restart_early_of e m (whole_cand cs.now c) f idx }
{
    if m.fsk_cnt > 0 {
        let thr = arith::midpoint(m.f_ref, f);
        Early {
            f_early: m.f_ref,
            t_early: restart_at(c.cand_before, cs[0], thr, c.fsk_cand, idx),
            early: 1,
        }
    } else {
        e
    }
}

#[tactic(auto, unfolding(crate::specs::Seek::clear_of))]
fn clear(c: CandCore) -> CandCore
    ensures { (cs : List Float) → whole_cand cs result ≡ clear_of (whole_cand cs c) }
{
    CandCore { fsk_cand: 0, ..c }
}

#[tactic(auto, unfolding(crate::specs::Seek::far_from_of))]
fn far_from(f: f32, f_ref: f32, delta: f32) -> bool
    ensures { result ≡ far_from_of f f_ref delta }
{
    arith::abs(f - f_ref) > delta
}

// The frame before its first transition: the levels and the committed runs stay.
#[tactic(auto, unfolding(crate::specs::Sample::seek_frame_of))]
fn seek_frame(fr: FrameCore, t: Tone, mean: Mean, c: CandCore) -> FrameCore
    ensures { (old cs : List Float) → whole_frame cs result ≡ seek_frame_of (whole_frame old fr) t mean (whole_cand cs c) fr.early }
{
    FrameCore {
        tone: t,
        mean,
        cand: c,
        runs: fr.runs.lengthen(),
        ..fr
    }
}

// The mean had too few samples to stand for a level: it begins anew with the candidates.
fn restart(n: FrameCore, idx: u64, cs: &[f32; 8]) -> FrameCore
    ensures { whole_frame cs.now result ≡ restart_in (whole_frame cs.now n) idx }
{
    let f = n.tone.f_prev;
    FrameCore {
        mean: Mean {
            f_ref: f,
            fsk_cnt: 1,
        },
        cand: clear(n.cand),
        early: restart_early(n.early, n.mean, n.cand, f, idx, cs),
        ..n
    }
}

// A sample away from the first level, which is the last candidate of n.
fn away(max: u32, m: u32, n: FrameCore, idx: u64, cs: &[f32; 8], fsk: &mut [u32]) -> FrameCore
    ensures { (whole_frame cs.now result, fsk.new) ≡ away_in max m (whole_frame cs.now n) idx fsk.old }
{
    if n.cand.fsk_cand < m {
        n
    } else if n.mean.fsk_cnt < m {
        restart(n, idx, cs)
    } else {
        fsk::fsk_resolve(max, m, n, n.tone.f_prev, idx, cs, fsk)
    }
}

// Before the first transition: the mean of the first level, and the candidates.
#[tactic(auto, unfolding(crate::specs::Sample::seek_of))]
fn seek(
    p: Settings,
    m: u32,
    fr: FrameCore,
    t: Tone,
    idx: u64,
    cs: &mut [f32; 8],
    fsk: &mut [u32],
) -> FrameCore
    ensures { (whole_frame cs.new result, fsk.new) ≡ seek_of p m (whole_frame cs.old fr) t idx fsk.old }
{
    let mean = seed(fr.mean, fr.cand.fsk_cand, t.f_prev);
    if far_from(t.f_prev, mean.f_ref, p.fsk_delta) {
        let c = push_cand(fr.cand, mean.f_ref, t.f_prev, fr.tone.f_prev, cs);
        away(p.max_pulses, m, seek_frame(fr, t, mean, c), idx, cs, fsk)
    } else {
        seek_frame(fr, t, average(mean, t.f_prev), clear(fr.cand))
    }
}

// After it: the two levels are followed, and the run machine goes on.
#[tactic(auto, unfolding(run::specs::Run::edge_at, crate::specs::Sample::track_of, crate::specs::Tone::upper_of, run::specs::Run::is_high_of))]
fn track(p: Settings, m: u32, fr: FrameCore, t: Tone, idx: u64, fsk: &mut [u32]) -> FrameCore
    ensures { (cs : List Float) → (whole_frame cs result, fsk.new) ≡ track_of p m (whole_frame cs fr) t idx fsk.old }
{
    let up = fr.runs.run.level == 1;
    let thr = fr.levels.slice_thr(up);
    let upper = run::is_high(up, t.f_prev, thr);
    let c = Crossing {
        idx,
        before: fr.tone.f_prev,
        at: t.f_prev,
        thr,
    };
    let s = fsk::fsk_run_step(p.max_pulses, m, fr.runs, fr.done, upper, c, fsk);
    FrameCore {
        tone: t,
        levels: follow(upper, fr.levels, t.f_prev),
        runs: s.runs,
        done: s.done,
        ..fr
    }
}

// One sample of a frame: d is the product of the sample and the conjugate of the one before, e its envelope, high the signal level.
#[tactic(auto, unfolding(crate::specs::Sample::fsk_sample_of))]
pub fn fsk_sample(
    p: Settings,
    fr: FrameCore,
    high: f32,
    d: C32,
    e: f32,
    idx: u64,
    cs: &mut [f32; 8],
    fsk: &mut [u32],
) -> FrameCore
    ensures { (whole_frame cs.new result, fsk.new) ≡ fsk_sample_of p (whole_frame cs.old fr) high d e idx fsk.old }
{
    let m = shared::fsk_min(p.min_steps);
    let t = tone_of(p.alpha, high, d, e, fr.tone);
    if fr.fsk_phase == 0 {
        seek(p, m, fr, t, idx, cs, fsk)
    } else {
        track(p, m, fr, t, idx, fsk)
    }
}
