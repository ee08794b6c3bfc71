// The frequency runs of a frame: `fsk_commit`, `fsk_run_step`, `begin_frame` and `fsk_resolve` of the Rust,
// each over the part of the frame that it changes.
#![tactic(auto)]

ghost use Rattle.std.specs.Prelude.{◌≡◌, ◌≤◌, cond, not, List, Float, Some, None};
ghost use Rattle.fsk.specs.Commit.{put_end_of, count_run_of, upper_run_of, close_pair_of, lower_run_of, fsk_commit_of};
ghost use Rattle.fsk.specs.Core.{whole_cand, whole_frame};
ghost use Rattle.shared.specs.Counts.{bit};
ghost use Rattle.run.specs.Run.{edge_at};
ghost use Rattle.fsk.specs.RunStep.{lengthen_of, meets_of, move_runs_of, confirm_of, confirm_due_of, fsk_run_step_of};
ghost use Rattle.fsk.specs.Resolve.{begin_frame_of, slice_thr_of, past_of, first_past_of, cand_at_of, before_of, turn_at_of, hi_lo_of, other_level_of, is_early_of, open_runs_of, second_run_of, settle_of, fsk_resolve_of};

use arith::C32;
use run::{Crossing, Move, Run};

// The low-passed product, and its frequency at the sample before.
#[derive(Clone, Copy, Default)]
pub struct Tone {
    pub fm: C32,
    pub f_prev: f32,
}

// The mean of the first level, over fsk_cnt samples.
#[derive(Clone, Copy, Default)]
pub struct Mean {
    pub f_ref: f32,
    pub fsk_cnt: u32,
}

// The candidates of the first transition, and the frequency before the first of them. The count fsk_cand is a lane's number, as in
// shared::Settings.
#[derive(Clone, Copy, Default)]
pub struct Cand {
    pub cand_f: [f32; 8],
    pub cand_before: f32,
    pub fsk_cand: u32,
}

// The same in the core: the candidates are an array of their own there, which is lent where one is stored or read. A struct of its own: as
// one struct over the type of the array, `()` here, each of these made in the core would state a field that it has not.
#[derive(Clone, Copy, Default)]
pub struct CandCore {
    pub cand_before: f32,
    pub fsk_cand: u32,
}

// Flags and counts in the structs below are numbers, as in shared::Settings.

// The mean before the last restart of the first level, its time, and whether there was one.
#[derive(Clone, Copy, Default)]
pub struct Early {
    pub f_early: f32,
    pub t_early: f64,
    pub early: u32,
}

// The two levels that the slicer follows.
#[derive(Clone, Copy, Default)]
pub struct Levels {
    pub f_hi: f32,
    pub f_lo: f32,
}

// The frequency run under way, and 1 where the run before it waits for this one to count: only then is it committed.
#[derive(Clone, Copy, Default)]
pub struct Runs {
    pub run: Run,
    pub fsk_has_prev: u32,
}

// The committed frequency runs of a frame: the slots hold their ends, in 64ths of a step after f_origin.
#[derive(Clone, Copy, Default)]
pub struct Committed {
    pub f_origin: f64,
    pub f_last: f64,
    pub fsk_open: u32,
    pub fsk_n: u32,
    pub fsk_runs: u32,
    pub fsk_full: u32,
}

// The frame under way, a caller's or the core's (ook::EndedOf); fsk_phase is 0 before its first transition, and 1 after.
#[derive(Clone, Copy, Default)]
pub struct FrameOf<C> {
    pub tone: Tone,
    pub fsk_phase: u32,
    pub mean: Mean,
    pub cand: C,
    pub early: Early,
    pub levels: Levels,
    pub runs: Runs,
    pub done: Committed,
}

pub type Frame = FrameOf<Cand>;

pub type FrameCore = FrameOf<CandCore>;

// The runs after a step, and what is committed.
#[derive(Clone, Copy)]
pub struct Ran {
    pub runs: Runs,
    pub done: Committed,
}

// The first transition: its time, and the samples after it.
#[derive(Clone, Copy)]
pub struct Turn {
    pub tc: f64,
    pub second: u32,
}

// Where the first run that is not committed starts, and what is.
#[derive(Clone, Copy)]
pub struct Opening {
    pub from: f64,
    pub done: Committed,
}

// Below, `max` and the slots stay two parameters: a struct that lends the slots needs a ghost name for what was written, as `lent` of
// stream::Station, in each contract, where the slice says it itself.

// The end t of a run goes into a slot, in 64ths of a step after the origin.
#[tactic(auto, unfolding(crate::specs::Commit::put_end_of))]
pub fn put_end(fsk: &mut [u32], i: usize, origin: f64, t: f64)
    ensures { fsk.new ≡ put_end_of fsk.old i origin t }
{
    shared::put(fsk, i, arith::run_fix(t - origin).0);
}

impl Committed {
    // One run more; the first sets the origin.
    #[tactic(auto, unfolding(crate::specs::Commit::count_run_of, crate::specs::Commit::origin_of, shared::specs::Counts::inc))]
    fn count_run(self, a: f64) -> Committed
        ensures { result ≡ count_run_of self a }
    {
        Committed {
            f_origin: if self.fsk_runs == 0 { a } else { self.f_origin },
            fsk_runs: self.fsk_runs.wrapping_add(1),
            ..self
        }
    }

    #[tactic(auto, unfolding(crate::specs::Commit::upper_run_of))]
    fn upper_run(self, max: u32, b: f64, fsk: &mut [u32]) -> Committed
        ensures { (result, fsk.new) ≡ upper_run_of max self b fsk.old }
    {
        if self.fsk_n >= max {
            Committed {
                fsk_full: 1,
                ..self
            }
        } else {
            put_end(fsk, 2 * (self.fsk_n as usize), self.f_origin, b);
            Committed {
                fsk_open: 1,
                f_last: b,
                ..self
            }
        }
    }

    // The second slot of the pair, which is whole then.
    #[tactic(auto, unfolding(shared::specs::Counts::inc))]
    pub fn close_pair(self, b: f64, fsk: &mut [u32]) -> Committed
        ensures { (result, fsk.new) ≡ close_pair_of self b fsk.old }
    {
        put_end(fsk, 2 * (self.fsk_n as usize) + 1, self.f_origin, b);
        Committed {
            fsk_n: self.fsk_n.wrapping_add(1),
            fsk_open: 0,
            f_last: b,
            ..self
        }
    }

    #[tactic(auto, unfolding(crate::specs::Commit::lower_run_of))]
    fn lower_run(self, max: u32, a: f64, b: f64, fsk: &mut [u32]) -> Committed
        ensures { (result, fsk.new) ≡ lower_run_of max self a b fsk.old }
    {
        if self.fsk_open != 0 {
            self.close_pair(b, fsk)
        } else if self.fsk_n >= max {
            Committed {
                fsk_full: 1,
                ..self
            }
        } else {
            put_end(fsk, 2 * (self.fsk_n as usize), self.f_origin, a);
            self.close_pair(b, fsk)
        }
    }

    // A run from a to b, at the upper level or at the lower.
    #[tactic(auto, unfolding(crate::specs::Commit::fsk_commit_of))]
    pub fn commit(self, max: u32, upper: bool, a: f64, b: f64, fsk: &mut [u32]) -> Committed
        ensures { (result, fsk.new) ≡ fsk_commit_of max self upper a b fsk.old }
    {
        if self.fsk_full == 1 || arith::fsk_width(a, b).0 == 0 {
            self
        } else if upper {
            self.count_run(a).upper_run(max, b, fsk)
        } else {
            self.count_run(a).lower_run(max, a, b, fsk)
        }
    }
}

impl Ran {
    // The run has lasted long enough: the one before it is final.
    #[tactic(auto, unfolding(crate::specs::RunStep::confirm_of))]
    fn confirm(self, max: u32, upper: bool, fsk: &mut [u32]) -> Ran
        ensures { (result, fsk.new) ≡ confirm_of max self.runs self.done upper fsk.old }
    {
        let r = self.runs.run;
        let run = Run { confirmed: 1, ..r };
        if self.runs.fsk_has_prev == 1 {
            let done = self.done.commit(max, !upper, r.t_prev, r.t_run, fsk);
            Ran {
                runs: Runs {
                    run,
                    fsk_has_prev: 0,
                },
                done,
            }
        } else {
            Ran {
                runs: Runs { run, ..self.runs },
                ..self
            }
        }
    }

    #[tactic(auto, unfolding(crate::specs::RunStep::confirm_due_of))]
    fn confirm_due(self, max: u32, fsk_min: u32, upper: bool, fsk: &mut [u32]) -> Ran
        ensures { (result, fsk.new) ≡ confirm_due_of max fsk_min self.runs self.done upper fsk.old }
    {
        if self.runs.run.due(fsk_min) {
            self.confirm(max, upper, fsk)
        } else {
            self
        }
    }
}

impl Runs {
    // One sample more.
    #[tactic(auto, unfolding(crate::specs::RunStep::lengthen_of))]
    pub fn lengthen(self) -> Runs
        ensures { result ≡ lengthen_of self }
    {
        Runs {
            run: self.run.lengthen(),
            ..self
        }
    }

    // What a sample of this level does to the run. One that is over before it counts is a glitch only where the run before it still waits:
    // one that is committed does not go on.
    #[tactic(auto, unfolding(crate::specs::RunStep::is_glitch_of))]
    #[inline(always)]
    fn meets(self, level: u32) -> Move
        ensures { result ≡ meets_of self level }
    {
        if level == self.run.level {
            Move::Same
        } else if self.run.confirmed == 0 && self.fsk_has_prev == 1 {
            Move::Glitch
        } else {
            Move::Begins
        }
    }

    // The runs after a sample of this level: the one before a run that begins waits for it to count.
    #[tactic(auto, unfolding(crate::specs::RunStep::lengthen_of))]
    fn moved(self, level: u32, c: Crossing) -> Runs
        ensures { result ≡ move_runs_of (meets_of self level) self level (edge_at c) }
    {
        let m = self.meets(level);
        Runs {
            run: self.run.moved(m, level, c),
            fsk_has_prev: match m {
                Move::Same => self.fsk_has_prev,
                Move::Glitch => 0,
                Move::Begins => 1,
            },
        }
    }
}

// A sample of a frame whose levels are known: its frequency run after it, and what that commits.
#[tactic(auto, unfolding(crate::specs::RunStep::fsk_run_step_of))]
pub fn fsk_run_step(
    max: u32,
    fsk_min: u32,
    r: Runs,
    done: Committed,
    upper: bool,
    c: Crossing,
    fsk: &mut [u32],
) -> Ran
    ensures { (result, fsk.new) ≡ fsk_run_step_of max fsk_min r done upper (edge_at c) fsk.old }
{
    let runs = r.moved(u32::from(upper), c);
    Ran { runs, done }.confirm_due(max, fsk_min, upper, fsk)
}

// A frame begins at the time t: no run and no level yet; f_origin and f_last stay, as in the Rust.
#[tactic(auto, unfolding(crate::specs::Resolve::begin_frame_of))]
pub fn begin_frame(fr: FrameCore, t: f64) -> FrameCore
    ensures { (cs : List Float) → whole_frame cs result ≡ begin_frame_of (whole_frame cs fr) t }
{
    FrameCore {
        early: Early {
            t_early: t,
            ..Early::default()
        },
        runs: Runs {
            run: Run::start_run(t),
            ..Runs::default()
        },
        done: Committed {
            f_origin: fr.done.f_origin,
            f_last: fr.done.f_last,
            ..Committed::default()
        },
        ..FrameCore::default()
    }
}

// Half the width of the slicer's hysteresis, as a part of the distance of the levels: as much of the swing as the envelope's.
const FSK_HYSTERESIS: f32 = 0.0625;

impl Levels {
    // The level before the first transition and the one after it.
    #[tactic(auto, unfolding(crate::specs::Resolve::hi_lo_of))]
    fn of(first_upper: bool, f_ref: f32, f: f32) -> Levels
        ensures { result ≡ hi_lo_of first_upper f_ref f }
    {
        if first_upper {
            Levels {
                f_hi: f_ref,
                f_lo: f,
            }
        } else {
            Levels {
                f_hi: f,
                f_lo: f_ref,
            }
        }
    }

    // The threshold between the two, for a run at the upper or at the lower one.
    #[tactic(auto, unfolding(crate::specs::Resolve::slice_thr_of))]
    pub fn slice_thr(self, upper: bool) -> f32
        ensures { result ≡ slice_thr_of upper self.f_hi self.f_lo }
    {
        let mid = arith::midpoint(self.f_hi, self.f_lo);
        let h = (self.f_hi - self.f_lo) * FSK_HYSTERESIS;
        if upper { mid - h } else { mid + h }
    }

    // How far f is from the level after the first, as a part of the distance of the two.
    #[tactic(auto, unfolding(crate::specs::Resolve::other_level_of))]
    fn other_level(self, first_upper: bool, f: f32) -> f32
        ensures { result ≡ other_level_of first_upper f self.f_hi self.f_lo }
    {
        let part = (f - self.f_lo) / (self.f_hi - self.f_lo);
        if first_upper { part } else { 1.0 - part }
    }
}

#[tactic(auto, unfolding(crate::specs::Resolve::past_of))]
fn past(first_upper: bool, f: f32, thr: f32) -> bool
    ensures { result ≡ past_of first_upper f thr }
{
    if first_upper { f < thr } else { f > thr }
}

// The first of n candidates past the threshold, or other.
fn first_past(first_upper: bool, thr: f32, cs: &[f32; 8], n: u32, other: u32) -> u32
    requires { n ≤ 8 }
    ensures { result ≡ first_past_of first_upper thr cs.now other n 0 }
{
    (0..n)
        .find(|&j| past(first_upper, cs[j as usize], thr))
        .unwrap_or(other)
}

#[tactic(auto, unfolding(crate::specs::Resolve::cand_at_of))]
fn cand_at(cs: &[f32; 8], j: u32, other: f32) -> f32
    ensures { result ≡ cand_at_of cs.now j other }
{
    cs.get(j as usize).copied().unwrap_or(other)
}

// The frequency before candidate j.
#[tactic(auto, unfolding(crate::specs::Resolve::before_of))]
fn before_of(cs: &[f32; 8], before: f32, j: u32) -> f32
    ensures { result ≡ before_of cs.now before j }
{
    j.checked_sub(1).map_or(before, |i| cand_at(cs, i, before))
}

// The time of the transition, of which `second` samples are over at idx.
#[tactic(auto, unfolding(crate::specs::Resolve::turn_at_of))]
fn turn_at(first_upper: bool, thr: f32, c: CandCore, f: f32, idx: u64, cs: &[f32; 8]) -> Turn
    ensures { result ≡ turn_at_of first_upper thr (whole_cand cs.now c) f idx }
{
    let n = c.fsk_cand.min(8);
    let last = c.fsk_cand.saturating_sub(1);
    let j = first_past(first_upper, thr, cs, n, last);
    let second = c.fsk_cand.saturating_sub(j);
    let before = before_of(cs, c.cand_before, j);
    let at = cand_at(cs, j, f);
    let sample = idx.wrapping_add(1).saturating_sub(u64::from(second));
    let tc = arith::edge(sample, arith::cross(before, at, thr));
    Turn { tc, second }
}

// How near the other level a short first run lies, as a part of the distance of the levels, and its least steps.
const EARLY_TOL: f32 = 0.3;

const EARLY_MIN: f64 = 2.0;

// Where the first run of the frame ends, if it is a short one before the last restart.
#[tactic(auto, unfolding(crate::specs::Resolve::is_early_of))]
fn early_end(e: Early, first_upper: bool, l: Levels, from: f64) -> Option<f64>
    ensures { result ≡ cond (is_early_of e first_upper l.f_hi l.f_lo from) (Some e.t_early) None }
{
    let early = e.early == 1
        && arith::abs(l.other_level(first_upper, e.f_early)) <= EARLY_TOL
        && e.t_early - from >= EARLY_MIN;
    early.then_some(e.t_early)
}

// Such a run is committed, and the next one starts at its end.
#[tactic(auto, unfolding(crate::specs::Resolve::open_runs_of))]
fn open_runs(
    max: u32,
    e: Early,
    first_upper: bool,
    l: Levels,
    from: f64,
    c: Committed,
    fsk: &mut [u32],
) -> Opening
    ensures { (result, fsk.new) ≡ open_runs_of max (is_early_of e first_upper l.f_hi l.f_lo from) first_upper from e.t_early c fsk.old }
{
    match early_end(e, first_upper, l, from) {
        Some(t) => Opening {
            from: t,
            done: c.commit(max, !first_upper, from, t, fsk),
        },
        None => Opening { from, done: c },
    }
}

// The second run, of t.second samples of the run so far: it counts at once where it is long, and else the one before it waits.
#[tactic(auto, unfolding(shared::specs::Counts::bit))]
fn second_run(first_upper: bool, run: u32, t: Turn, from: f64, long: bool) -> Runs
    ensures { result ≡ second_run_of first_upper run t from (bit long) (bit (not long)) }
{
    Runs {
        run: Run {
            level: u32::from(!first_upper),
            run_len: t.second,
            confirmed: u32::from(long),
            prev_len: run.saturating_sub(t.second),
            t_run: t.tc,
            t_prev: from,
        },
        fsk_has_prev: u32::from(!long),
    }
}

// The runs after the first transition: the second is confirmed at once where it is long enough.
#[tactic(auto, unfolding(crate::specs::Resolve::settle_of))]
fn settle(
    max: u32,
    fsk_min: u32,
    first_upper: bool,
    run: u32,
    t: Turn,
    o: Opening,
    fsk: &mut [u32],
) -> Ran
    ensures { (result, fsk.new) ≡ settle_of max fsk_min first_upper run t o fsk.old }
{
    let long = t.second >= fsk_min;
    let runs = second_run(first_upper, run, t, o.from, long);
    let done = if long {
        o.done.commit(max, first_upper, o.from, t.tc, fsk)
    } else {
        o.done
    };
    Ran { runs, done }
}

// The first transition of a frame is certain: its two levels, the end of its first run, and the second run under way.
#[tactic(auto, unfolding(crate::specs::Resolve::fsk_resolve_of))]
pub fn fsk_resolve(
    max: u32,
    fsk_min: u32,
    fr: FrameCore,
    f: f32,
    idx: u64,
    cs: &[f32; 8],
    fsk: &mut [u32],
) -> FrameCore
    ensures { (whole_frame cs.now result, fsk.new) ≡ fsk_resolve_of max fsk_min (whole_frame cs.now fr) f idx fsk.old }
{
    let first_upper = fr.mean.f_ref > f;
    let from = fr.runs.run.t_run;
    let l = Levels::of(first_upper, fr.mean.f_ref, f);
    let t = turn_at(first_upper, l.slice_thr(first_upper), fr.cand, f, idx, cs);
    let o = open_runs(max, fr.early, first_upper, l, from, fr.done, fsk);
    let s = settle(max, fsk_min, first_upper, fr.runs.run.run_len, t, o, fsk);
    FrameCore {
        fsk_phase: 1,
        levels: l,
        runs: s.runs,
        done: s.done,
        ..fr
    }
}
