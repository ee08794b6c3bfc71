// The lane by value: opening, begin, close, and the part of a buffer that a record names; its step is the crate `step`. Every value of
// every argument ends with the reply of document 01 or with the first refusal that applies, lane and buffers then as they were. The two
// buffers are lent as two slices, here and below, and not as a struct of both: so a signature says which of them a call may write, as
// `begin` none and `close` one.
#![tactic(auto)]

ghost use Rattle.std.specs.Prelude.{◌≡◌, true, ℕ, ◌≤◌, List};
ghost use Rattle.std.specs.List.{list_all};
ghost use Rattle.refusals.specs.Domain.{envelope_ok};
ghost use Rattle.lane.specs.Refusals.{opened_ok, lane_ok, history_ok, begin_floats_ok, step_floats_ok, follows_of, open_refusal, begin_refusal, close_refusal};
ghost use Rattle.lane.specs.Idle.{no_out, no_burst, idle_lane};
ghost use Rattle.lane.specs.Begin.{ring_before_of, nearest_first_of, history_of, ring_of, begin_lead_of, with_records, cleared_of, lead_lane};
ghost use Rattle.shared.specs.Core.{whole_out, numbered};
ghost use Rattle.burst.specs.Makers.{with_serials};
ghost use Rattle.burst.specs.Types.{Burst};
ghost use Rattle.lane.specs.Close.{idle_with, end_burst_of};
ghost use Rattle.lane.specs.Step.{refuse, new_lane, opened, begun, closed};
ghost use Rattle.lane.specs.Part.{front, named_of, part_refusal, part_of, IsPart};
ghost use Rattle.lane.specs.Serial.{stamp_of};

use arith::C32;
use burst::{Burst, BurstOf, Lead};
use ook::EndedCore;
use presence::Pres;
use refusals::Refusal;
use shared::{Next, Out, OutCore, Settings};

// The seven envelopes before begin's, nearest first. Seven fields and not an array: in the definitions an array is a list of any length,
// so that the theorem `begin_back` (commands/proofs/Encode) would need the condition "of seven".
#[derive(Clone, Copy)]
pub struct History {
    pub e1: f32,
    pub e2: f32,
    pub e3: f32,
    pub e4: f32,
    pub e5: f32,
    pub e6: f32,
    pub e7: f32,
}

impl History {
    fn nearest_first(self) -> [f32; 7]
        ensures { result ≡ nearest_first_of self }
    {
        [
            self.e1, self.e2, self.e3, self.e4, self.e5, self.e6, self.e7,
        ]
    }
}

#[derive(Clone, Copy)]
pub struct BeginArgs {
    pub index: u64,
    pub factor: f32,
    pub envelope: f32,
    pub x: C32,
    pub before: C32,
    pub history: History,
}

#[derive(Clone, Copy)]
pub struct StepArgs {
    pub index: u64,
    pub noise: f32,
    pub envelope: f32,
    pub x: C32,
}

// Numbers and flags, here and in the structs within, are as in shared::Settings: refusal 4 names a lane that holds others. The ring is a
// plain array, which the core's callers lend as one (step::step_core): its rule, index mod 32, is a line in each of the two functions that
// write it here and in ook's that reads it, so a struct with three methods of one line each is no shorter.
#[derive(Clone, Copy, Default)]
pub struct Lane {
    // 0 where it never had settings, 1 where it has.
    pub opened: u32,
    pub settings: Settings,
    // 0 idle, 1 lead, 2 burst.
    pub phase: u32,
    // The index and the sample of the last accepted begin or step.
    pub last: u64,
    pub x_prev: C32,
    pub lead: Lead,
    // The envelopes, each at its index mod 32.
    pub ring: [f32; 32],
    pub burst: Burst,
    // The number of the accepted calls, which the records of the last have too; 0 where there was none.
    pub serial: u64,
}

// What an accepted call asks for, or why a call is refused.
pub type Reply = Result<Next, Refusal>;

#[derive(Clone, Copy)]
pub struct Answer {
    pub reply: Reply,
    pub lane: Lane,
}

// ---- refusals

#[tactic(auto, unfolding(crate::specs::Refusals::opened_ok))]
fn opened_ok(opened: u32, phase: u32, p: Settings) -> bool
    ensures { result ≡ opened_ok opened phase p }
{
    if opened == 0 {
        (phase == 0) & refusals::unset_ok(p)
    } else {
        (opened == 1) & refusals::settings_ok(p)
    }
}

#[tactic(auto, unfolding(crate::specs::Refusals::lane_ok))]
pub fn lane_ok(l: Lane) -> bool
    ensures { result ≡ lane_ok l }
{
    let p = l.settings;
    opened_ok(l.opened, l.phase, p)
        & (l.phase <= 2)
        & refusals::burst_ok(p.max_pulses, l.burst)
        & refusals::lead_ok(l.phase, p.min_steps, l.lead)
        & refusals::cand_ok(l.phase, p.min_steps, l.burst.frame)
        & refusals::index_ok(l.last)
        & refusals::serial_ok(l.serial)
}

fn envelopes_ok(es: [f32; 7]) -> bool
    ensures { result ≡ list_all envelope_ok es }
{
    es.iter().all(|e| refusals::envelope_ok(*e))
}

#[tactic(auto, unfolding(crate::specs::Refusals::history_ok))]
fn history_ok(h: History) -> bool
    ensures { result ≡ history_ok h }
{
    envelopes_ok(h.nearest_first())
}

#[tactic(auto, unfolding(crate::specs::Refusals::begin_floats_ok))]
fn begin_floats_ok(b: BeginArgs) -> bool
    ensures { result ≡ begin_floats_ok b }
{
    refusals::factor_ok(b.factor)
        & refusals::envelope_ok(b.envelope)
        & refusals::sample_ok(b.x)
        & refusals::sample_ok(b.before)
        & history_ok(b.history)
}

#[tactic(auto, unfolding(crate::specs::Refusals::step_floats_ok))]
pub fn step_floats_ok(s: StepArgs) -> bool
    ensures { result ≡ step_floats_ok s }
{
    refusals::envelope_ok(s.noise) & refusals::envelope_ok(s.envelope) & refusals::sample_ok(s.x)
}

// index == last + 1, whatever the two are.
pub fn follows(last: u64, index: u64) -> bool
    ensures { result ≡ follows_of last index }
{
    index.checked_sub(1) == Some(last)
}

#[tactic(auto, unfolding(crate::specs::Refusals::open_refusal))]
fn open_refusal(l: Lane, p: Settings) -> Result<(), Refusal>
    ensures { result ≡ open_refusal l p }
{
    refusals::check(refusals::settings_ok(p), Refusal::Settings)?;
    refusals::check(refusals::serial_left(l.serial), Refusal::Serial)
}

#[tactic(auto, unfolding(crate::specs::Refusals::begin_refusal, refusals::specs::Order::first_failed))]
fn begin_refusal(l: Lane, b: BeginArgs, ook: usize, fsk: usize) -> Result<(), Refusal>
    ensures { result ≡ begin_refusal l b ook fsk }
{
    refusals::check(l.opened != 0, Refusal::Settings)?;
    refusals::check(lane_ok(l), Refusal::Lane)?;
    refusals::check(l.phase == 0, Refusal::Phase)?;
    refusals::check(refusals::serial_left(l.serial), Refusal::Serial)?;
    refusals::check(refusals::index_ok(b.index), Refusal::Index)?;
    refusals::check(begin_floats_ok(b), Refusal::Float)?;
    refusals::check(refusals::room_ok(l.settings, ook, fsk), Refusal::Room)
}

#[tactic(auto, unfolding(crate::specs::Refusals::close_refusal, refusals::specs::Order::first_failed))]
fn close_refusal(l: Lane, ook: usize, fsk: usize) -> Result<(), Refusal>
    ensures { result ≡ close_refusal l ook fsk }
{
    refusals::check(lane_ok(l), Refusal::Lane)?;
    refusals::check(l.phase != 0, Refusal::Phase)?;
    refusals::check(refusals::room_ok(l.settings, ook, fsk), Refusal::Room)
}

// ---- opening

// The record of a call that decides nothing; its serial is the call's.
fn no_out(serial: u64) -> Out
    ensures { result ≡ numbered serial no_out }
{
    Out {
        serial,
        ..Out::default()
    }
}

#[tactic(auto, unfolding(crate::specs::Idle::no_burst))]
fn no_burst(serial: u64) -> Burst
    ensures { result ≡ with_serials serial serial no_burst }
{
    with_records(Burst::default(), no_out(serial))
}

fn idle_lane(opened: u32, p: Settings, serial: u64) -> Lane
    ensures { result ≡ stamp_of serial (idle_lane opened p) }
{
    Lane {
        opened,
        settings: p,
        burst: no_burst(serial),
        serial,
        ..Lane::default()
    }
}

// The idle lane that never had settings.
#[tactic(auto, unfolding(crate::specs::Step::new_lane, crate::specs::Idle::idle_lane, crate::specs::Idle::no_burst, crate::specs::Serial::stamp_of))]
pub fn new_lane() -> Lane
    ensures { result ≡ new_lane }
{
    idle_lane(0, Settings::default(), 0)
}

// A refused call gives the lane back. An `Answer` has the lane whether the call is refused or not, so it is no `Result` for `?`: with an
// inner function for `?` the four calls would need one more each, and still a `match` on what it gives.
pub fn refused(l: Lane, k: Refusal) -> Answer
    ensures { result ≡ refuse k l }
{
    Answer {
        reply: Err(k),
        lane: l,
    }
}

// Opening: settings give an idle lane in place of l, whose serial goes on.
#[tactic(auto, unfolding(crate::specs::Step::opened))]
pub fn open(l: Lane, p: Settings) -> Answer
    ensures { result ≡ opened l p }
{
    if let Err(k) = open_refusal(l, p) {
        return refused(l, k);
    }
    Answer {
        reply: Ok(Next::Stay),
        lane: idle_lane(1, p, l.serial + 1),
    }
}

// ---- begin

// The envelope of `back` samples before goes to its place in the ring.
fn ring_before(ring: &mut [f32; 32], index: u64, back: u64, e: f32)
    requires { back ≤ 32 }
    ensures { ring.new ≡ ring_before_of ring.old index back e }
{
    ring[((index % 32 + (32 - back)) % 32) as usize] = e;
}

// `history` of the Rust.
fn fill_history(ring: &mut [f32; 32], index: u64, h: History)
    ensures { ring.new ≡ history_of ring.old index h }
{
    for (i, e) in h.nearest_first().iter().enumerate() {
        ring_before(ring, index, 1 + i as u64, *e);
    }
}

// The envelope goes to its place in the ring.
pub fn ring_put(ring: &mut [f32; 32], index: u64, e: f32)
    ensures { ring.new ≡ ring_of ring.old index e }
{
    ring[(index % 32) as usize] = e;
}

fn begin_lead(b: BeginArgs) -> Lead
    ensures { result ≡ begin_lead_of b }
{
    let mut lead = Lead {
        lead_at: b.index,
        lead_n: 1,
        ..Lead::default()
    };
    lead.lead_e[0] = b.envelope;
    lead.lead_x[0] = b.before;
    lead.lead_x[1] = b.x;
    lead
}

// The burst with this record of its train and of its frame, a caller's or the core's.
pub fn with_records<C, O: Copy>(b: BurstOf<C, O>, out: O) -> BurstOf<C, O>
    ensures { result ≡ with_records out b }
{
    BurstOf {
        out_ook: out,
        out_fsk: out,
        ..b
    }
}

#[tactic(auto, unfolding(crate::specs::Begin::cleared_of))]
fn clear_records(b: Burst, serial: u64) -> Burst
    ensures { result ≡ with_serials serial serial (cleared_of b) }
{
    with_records(b, no_out(serial))
}

#[tactic(auto, unfolding(crate::specs::Begin::lead_lane, crate::specs::Serial::stamp_of))]
fn lead_lane(l: Lane, b: BeginArgs, serial: u64) -> Lane
    ensures { result ≡ stamp_of serial (lead_lane l b) }
{
    let mut ring = l.ring;
    ring_put(&mut ring, b.index, b.envelope);
    fill_history(&mut ring, b.index, b.history);
    let burst = clear_records(l.burst, serial);
    let pres = Pres {
        p_factor: b.factor,
        ..burst.pres
    };
    Lane {
        phase: 1,
        last: b.index,
        x_prev: b.x,
        lead: begin_lead(b),
        ring,
        burst: Burst { pres, ..burst },
        serial,
        ..l
    }
}

// Begin: the lane goes to its lead. Neither buffer is written.
#[tactic(auto, unfolding(crate::specs::Step::begun))]
pub fn begin(l: Lane, b: BeginArgs, ook: &[u32], fsk: &[u32]) -> Answer
    ensures { result ≡ begun l b ook.now fsk.now }
{
    if let Err(k) = begin_refusal(l, b, ook.len(), fsk.len()) {
        return refused(l, k);
    }
    Answer {
        reply: Ok(Next::Stay),
        lane: lead_lane(l, b, l.serial + 1),
    }
}

// ---- close

// The core's record of a call that decides nothing. A function of its own for its contract, which says that the record is `no_out`.
pub fn no_core_out() -> OutCore
    ensures { whole_out result ≡ no_out }
{
    OutCore::default()
}

// The burst with its train decided; its records have the call's serial.
fn end_burst(b: Burst, serial: u64, ook: &mut [u32]) -> Burst
    ensures { ◌≡◌ {A = Burst × List ℕ} (result, ook.new) (with_serials serial serial (end_burst_of b ook.old).0, (end_burst_of b ook.old).1) }
{
    let e = EndedCore {
        train: b.train,
        out: no_core_out(),
    }
    .end_train(b.high, ook);
    Burst {
        train: e.train,
        out_ook: shared::whole_out(e.out, serial),
        ..clear_records(b, serial)
    }
}

// The lane idle, with this burst.
fn idle_with(l: Lane, burst: Burst, serial: u64) -> Lane
    ensures { (b : Burst) → burst ≡ with_serials serial serial b → result ≡ stamp_of serial (idle_with l b).lane }
{
    Lane {
        phase: 0,
        burst,
        serial,
        ..l
    }
}

// Close: the burst ends as if its gap had run out. In lead there is no train. The FSK buffer is only measured.
#[tactic(auto, unfolding(crate::specs::Step::closed))]
pub fn close(l: Lane, ook: &mut [u32], fsk: &[u32]) -> Answer
    ensures { (result, ook.new, fsk.now) ≡ closed l ook.old fsk.now }
{
    if let Err(k) = close_refusal(l, ook.len(), fsk.len()) {
        return refused(l, k);
    }
    let serial = l.serial + 1;
    let burst = if l.phase == 1 {
        clear_records(l.burst, serial)
    } else {
        end_burst(l.burst, serial, ook)
    };
    Answer {
        reply: Ok(Next::Idle),
        lane: idle_with(l, burst, serial),
    }
}

// ---- the pairs of a record

// The first n slots, none where there are fewer.
#[tactic(auto, unfolding(crate::specs::Part::front))]
fn first<'a>(s: &'a [u32], n: usize) -> &'a [u32]
    ensures { result.now ≡ front n s.now }
{
    s.get(..n).unwrap_or(&[])
}

// The slots that a record names.
#[tactic(auto, unfolding(crate::specs::Part::named_of))]
fn named<'a>(r: Out, ook: &'a [u32], fsk: &'a [u32]) -> &'a [u32]
    ensures { result.now ≡ named_of r ook.now fsk.now }
{
    if r.state != 1 {
        return &[];
    }
    let slots = 2 * (r.pairs as usize);
    first(if r.fsk == 1 { fsk } else { ook }, slots)
}

// Refused where the record is not of the lane's last accepted call.
pub fn part_refusal(l: Lane, r: Out) -> Result<(), Refusal>
    ensures { result ≡ part_refusal l r }
{
    refusals::check(refusals::serials_match(l.serial, r.serial), Refusal::Serial)
}

// The part of a record, by the lane that returned it.
pub fn fetch<'a>(l: Lane, r: Out, ook: &'a [u32], fsk: &'a [u32]) -> Result<&'a [u32], Refusal>
    ensures { IsPart l r ook.now fsk.now result }
{
    part_refusal(l, r)?;
    Ok(named(r, ook, fsk))
}

// The same, with the empty part in place of a refusal.
#[tactic(auto, unfolding(crate::specs::Part::part_of))]
pub fn part<'a>(l: Lane, r: Out, ook: &'a [u32], fsk: &'a [u32]) -> &'a [u32]
    ensures { result.now ≡ part_of l r ook.now fsk.now }
{
    fetch(l, r, ook, fsk).unwrap_or(&[])
}
