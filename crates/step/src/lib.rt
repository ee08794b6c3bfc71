// A step of the lane: one sample of the lead-in or of the burst. It is made on the lane's core, which is the lane but for its arrays,
// with the arrays lent: `step_core` for a program that keeps both, `step` for a caller that hands over the lane by value.
#![tactic(auto)]

ghost use Rattle.std.specs.Prelude.{◌≡◌, true, ℕ, ◌≤◌, ◌<◌, List, Float, pos, length, get_or, eqb};
ghost use Rattle.lane.specs.Answers.{phase_of, answer_of};
ghost use Rattle.lane.specs.Refusals.{step_refusal_by, step_refusal};
ghost use Rattle.lane.specs.Begin.{cleared_of};
ghost use Rattle.step.specs.Core.{zip_of, reals_of, imaginaries_of, lead_in, joined_of, at_call, with_cand, with_frame};
ghost use Rattle.shared.specs.Core.{whole_out};
ghost use Rattle.std.specs.Float.{binary64, nan};
ghost use Rattle.std.specs.Float.Ieee.{of_int};
ghost use Rattle.arith.specs.Leaves.{lead_len_of};
ghost use Rattle.burst.specs.Core.{whole_burst, at_in_of};
ghost use Rattle.burst.specs.Makers.{with_serials};
ghost use Rattle.burst.specs.Lead.{lead_add_of, largest_of, begin_burst_of};
ghost use Rattle.lane.specs.Step.{opened, stepped_by, stepped};
ghost use Rattle.lane.specs.Serial.{stamp_of};
ghost use Rattle.domain.specs.Limits.{max_serial};

use arith::C32;
use burst::{Burst, BurstCore, BurstOf, Lead};
use envelope::At;
use fsk::{Cand, CandCore, FrameOf};
use lane::{Answer, Lane, Reply, StepArgs, ring_put};
use refusals::Refusal;
use shared::{Next, OutCore, Settings};

// ---- refusals

// Why a step of a sound lane is refused. Settings, phase and last index come one by one: both the core and the lane have them.
#[tactic(auto, unfolding(refusals::specs::Order::first_failed))]
fn core_refusal(
    p: Settings,
    phase: u32,
    last: u64,
    s: StepArgs,
    ook: usize,
    fsk: usize,
) -> Result<(), Refusal>
    ensures { result ≡ step_refusal_by true p phase last s ook fsk }
{
    refusals::check(phase != 0, Refusal::Phase)?;
    refusals::check(
        refusals::index_ok(s.index) & lane::follows(last, s.index),
        Refusal::Index,
    )?;
    refusals::check(lane::step_floats_ok(s), Refusal::Float)?;
    refusals::check(refusals::room_ok(p, ook, fsk), Refusal::Room)
}

// The same of any lane, which is checked first.
#[tactic(auto, unfolding(lane::specs::Refusals::step_refusal, refusals::specs::Order::first_failed))]
fn step_refusal(l: Lane, s: StepArgs, ook: usize, fsk: usize) -> Result<(), Refusal>
    ensures { result ≡ step_refusal l s ook fsk }
{
    refusals::check(lane::lane_ok(l), Refusal::Lane)?;
    core_refusal(l.settings, l.phase, l.last, s, ook, fsk)
}

// ---- answers

#[tactic(auto, unfolding(lane::specs::Answers::phase_of))]
fn phase_of(n: Next) -> u32
    ensures { result ≡ phase_of n }
{
    match n {
        Next::Stay => 2,
        Next::Idle | Next::IdleAt(_) => 0,
    }
}

// ---- the core: the lane but for its arrays, which are lent

// The lead-in's envelopes and samples, the ring and the candidates stand beside it: es, re and im, ring, cs. The serial is
// that of both records too. Its numbers are a lane's, as in shared::Settings. The samples are two arrays of numbers, and the arrays are
// lent one by one, as the laws of the core (proofs/Ways), calls and sixteen have them: neither other form is slower where a call takes
// 411 to 641 instructions (one array of C32 takes 1 to 2 % fewer, one struct of all the arrays 0.4 %), but neither is proved.
#[derive(Clone, Copy)]
pub struct Core {
    pub opened: u32,
    pub settings: Settings,
    pub phase: u32,
    pub last: u64,
    pub x_prev: C32,
    pub lead_at: u64,
    pub lead_n: u32,
    pub burst: BurstCore,
    pub serial: u64,
}

#[derive(Clone, Copy)]
pub struct CoreAnswer {
    pub reply: Reply,
    pub core: Core,
}

// The same frame with other candidates, and the same burst with another frame and other records: a caller's made the core's, and back.
// Field by field, since a struct update keeps the type.
fn with_cand<C: Copy, D>(f: FrameOf<C>, cand: D) -> FrameOf<D>
    ensures { result ≡ with_cand cand f }
{
    FrameOf {
        tone: f.tone,
        fsk_phase: f.fsk_phase,
        mean: f.mean,
        cand,
        early: f.early,
        levels: f.levels,
        runs: f.runs,
        done: f.done,
    }
}

fn with_frame<C: Copy, D, O: Copy, P>(
    b: BurstOf<C, O>,
    frame: FrameOf<D>,
    out_ook: P,
    out_fsk: P,
) -> BurstOf<D, P>
    ensures { result ≡ with_frame frame out_ook out_fsk b }
{
    BurstOf {
        high: b.high,
        e_prev: b.e_prev,
        env: b.env,
        pac: b.pac,
        train: b.train,
        out_ook,
        frames: b.frames,
        pres: b.pres,
        frame,
        out_fsk,
    }
}

fn core_burst(b: Burst) -> BurstCore
    ensures { with_serials b.out_ook.serial b.out_fsk.serial (whole_burst b.frame.cand.cand_f result) ≡ b }
{
    let cand = CandCore {
        cand_before: b.frame.cand.cand_before,
        fsk_cand: b.frame.cand.fsk_cand,
    };
    with_frame(
        b,
        with_cand(b.frame, cand),
        shared::core_out(b.out_ook),
        shared::core_out(b.out_fsk),
    )
}

// The core of a lane: with the lane's arrays it joins to that lane, whose records then have the lane's serial.
pub fn core_of(l: Lane) -> Core
    ensures { (re im : List Float) → zip_of re im ≡ l.lead.lead_x → joined_of result l.lead.lead_e re im l.ring l.burst.frame.cand.cand_f ≡ stamp_of l.serial l }
{
    Core {
        opened: l.opened,
        settings: l.settings,
        phase: l.phase,
        last: l.last,
        x_prev: l.x_prev,
        lead_at: l.lead.lead_at,
        lead_n: l.lead.lead_n,
        burst: core_burst(l.burst),
        serial: l.serial,
    }
}

// The envelopes of the lead-in.
pub fn envelopes(l: Lane) -> [f32; 16]
    ensures { (result ≡ l.lead.lead_e) × (length result ≡ 16) }
{
    l.lead.lead_e
}

// The real and the imaginary parts of its samples, in one pass over them. By `map` twice, here and below, a call of an
// OOK stream takes 410 instructions in place of 400, and one of an FSK stream 640 in place of 632.
pub fn parts(l: Lane) -> ([f32; 17], [f32; 17])
    ensures { (result.0 ≡ reals_of l.lead.lead_x) × (result.1 ≡ imaginaries_of l.lead.lead_x) × (length result.0 ≡ 17) × (length result.1 ≡ 17) }
{
    let mut re = [0.0; 17];
    let mut im = [0.0; 17];
    for (i, x) in l.lead.lead_x.iter().enumerate() {
        re[i] = x.re;
        im[i] = x.im;
    }
    (re, im)
}

// The real parts alone.
pub fn reals(l: Lane) -> [f32; 17]
    ensures { (result ≡ reals_of l.lead.lead_x) × (length result ≡ 17) }
{
    parts(l).0
}

// The imaginary parts alone.
pub fn imaginaries(l: Lane) -> [f32; 17]
    ensures { (result ≡ imaginaries_of l.lead.lead_x) × (length result ≡ 17) }
{
    parts(l).1
}

// Not by `std::array::from_fn`: tried, its contract tells each element by a call of the closure in some state, and that this state has
// the two arrays was not proved.
fn pairs_of(re: [f32; 17], im: [f32; 17]) -> [C32; 17]
    ensures { result ≡ zip_of re im }
{
    let mut xs = [C32::default(); 17];
    for (i, x) in re.iter().enumerate() {
        xs[i] = C32 { re: *x, im: im[i] };
    }
    xs
}

fn whole_burst(b: BurstCore, cs: [f32; 8], serial: u64) -> Burst
    ensures { result ≡ with_serials serial serial (whole_burst cs b) }
{
    let cand = Cand {
        cand_f: cs,
        cand_before: b.frame.cand.cand_before,
        fsk_cand: b.frame.cand.fsk_cand,
    };
    with_frame(
        b,
        with_cand(b.frame, cand),
        shared::whole_out(b.out_ook, serial),
        shared::whole_out(b.out_fsk, serial),
    )
}

// The lane that a core and its arrays stand for.
pub fn joined(
    c: Core,
    es: [f32; 16],
    re: [f32; 17],
    im: [f32; 17],
    ring: [f32; 32],
    cs: [f32; 8],
) -> Lane
    ensures { result ≡ joined_of c es re im ring cs }
{
    Lane {
        opened: c.opened,
        settings: c.settings,
        phase: c.phase,
        last: c.last,
        x_prev: c.x_prev,
        lead: Lead {
            lead_at: c.lead_at,
            lead_n: c.lead_n,
            lead_e: es,
            lead_x: pairs_of(re, im),
        },
        ring,
        burst: whole_burst(c.burst, cs, c.serial),
        serial: c.serial,
    }
}

// The burst without a record.
fn clear_core(b: BurstCore) -> BurstCore
    ensures { (cs : List Float) → whole_burst cs result ≡ cleared_of (whole_burst cs b) }
{
    lane::with_records(b, lane::no_core_out())
}

// The sample joins the lead-in.
fn lead_add(
    n: u32,
    e: f32,
    x: C32,
    es: &mut [f32; 16],
    re: &mut [f32; 17],
    im: &mut [f32; 17],
) -> u32
    requires { (length es.old ≡ 16) × (length re.old ≡ 17) × (length im.old ≡ 17) }
    ensures { ((at : ℕ) → lead_in at result es.new re.new im.new ≡ lead_add_of (lead_in at n es.old re.old im.old) e x) × (length es.new ≡ length es.old) × (length re.new ≡ length re.old) × (length im.new ≡ length im.old) }
{
    let i = n as usize;
    if i < 16 {
        es[i] = e;
        re[i + 1] = x.re;
        im[i + 1] = x.im;
    }
    n.wrapping_add(1)
}

// What a sample of the burst reads.
fn at_of(c: Core, s: StepArgs) -> At
    ensures { result ≡ at_call c.lead_at c.x_prev s }
{
    At {
        idx: s.index,
        lead_at: c.lead_at,
        noise: s.noise,
        e: s.envelope,
        x: s.x,
        xp: c.x_prev,
    }
}

// What the i-th sample of a call reads: of the lead-in where it is replayed, and else the one of the call.
#[tactic(auto, unfolding(burst::specs::Core::at_in_of))]
fn at_in(replays: bool, q: At, i: usize, es: &[f32; 16], re: &[f32; 17], im: &[f32; 17]) -> At
    requires { i < 16 }
    ensures { result ≡ at_in_of replays q es.now re.now im.now i }
{
    if !replays {
        return q;
    }
    At {
        idx: q.lead_at.wrapping_add(i as u64),
        e: es[i],
        x: C32 {
            re: re[i + 1],
            im: im[i + 1],
        },
        xp: C32 {
            re: re[i],
            im: im[i],
        },
        ..q
    }
}

// The burst that begins where the lead-in is full.
fn first_burst(lead_at: u64, es: &[f32; 16], n: usize, b: BurstCore) -> BurstCore
    requires { n ≤ 16 }
    ensures { (cs : List Float) → whole_burst cs result ≡ begin_burst_of (largest_of es.now n) (of_int binary64 (pos lead_at)) (get_or es.now 0 nan) (whole_burst cs b) }
{
    burst::begin_burst(
        burst::largest(&es[..n]),
        std::num::nearest_u64_to_f64(lead_at),
        es[0],
        b,
    )
}

// A step of the core, where refusal 4 does not apply.
pub fn step_core(
    c: Core,
    s: StepArgs,
    es: &mut [f32; 16],
    re: &mut [f32; 17],
    im: &mut [f32; 17],
    ring: &mut [f32; 32],
    cs: &mut [f32; 8],
    ook: &mut [u32],
    fsk: &mut [u32],
) -> CoreAnswer
    requires { (length es.old ≡ 16) × (length re.old ≡ 17) × (length im.old ≡ 17) × (eqb c.phase 1 ≡ true → 1 ≤ lead_len_of c.settings.min_steps) × (c.serial ≤ max_serial) }
    ensures { ((answer_of result.reply (joined_of result.core es.new re.new im.new ring.new cs.new), ook.new, fsk.new) ≡ stepped_by (step_refusal_by true c.settings c.phase c.last s (length ook.old) (length fsk.old)) (joined_of c es.old re.old im.old ring.old cs.old) s ook.old fsk.old) × (length es.new ≡ length es.old) × (length re.new ≡ length re.old) × (length im.new ≡ length im.old) }
{
    let p = c.settings;
    if let Err(k) = core_refusal(p, c.phase, c.last, s, ook.len(), fsk.len()) {
        return CoreAnswer {
            reply: Err(k),
            core: c,
        };
    }
    ring_put(ring, s.index, s.envelope);
    let mut m = Core {
        last: s.index,
        x_prev: s.x,
        burst: clear_core(c.burst),
        serial: c.serial + 1,
        ..c
    };
    let leads = c.phase == 1;
    let mut n = 1;
    if leads {
        m.lead_n = lead_add(c.lead_n, s.envelope, s.x, es, re, im);
        let len = arith::lead_len(p.min_steps);
        if m.lead_n < len {
            return CoreAnswer {
                reply: Ok(Next::Stay),
                core: m,
            };
        }
        n = len as usize;
        m.burst = first_burst(c.lead_at, es, n, m.burst);
    }
    let q = at_of(c, s);
    let read = |i: usize| at_in(leads, q, i, es, re, im);
    let w = burst::samples(p, read, n, ring, m.burst, cs, ook, fsk);
    CoreAnswer {
        reply: Ok(w.next),
        core: Core {
            phase: phase_of(w.next),
            burst: w.burst,
            ..m
        },
    }
}

// Step: one sample of the lead or of the burst.
#[tactic(auto, unfolding(lane::specs::Step::stepped))]
pub fn step(l: Lane, s: StepArgs, ook: &mut [u32], fsk: &mut [u32]) -> Answer
    ensures { (result, ook.new, fsk.new) ≡ stepped l s ook.old fsk.old }
{
    if let Err(k) = step_refusal(l, s, ook.len(), fsk.len()) {
        return lane::refused(l, k);
    }
    let mut es = envelopes(l);
    let (mut re, mut im) = parts(l);
    let mut ring = l.ring;
    let mut cs = l.burst.frame.cand.cand_f;
    let a = step_core(
        core_of(l),
        s,
        &mut es,
        &mut re,
        &mut im,
        &mut ring,
        &mut cs,
        ook,
        fsk,
    );
    Answer {
        reply: a.reply,
        lane: joined(a.core, es, re, im, ring, cs),
    }
}
