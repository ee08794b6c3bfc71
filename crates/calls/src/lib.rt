// The turns of the listing program: the command at a place of the bytes is decoded, the lane called
// with both buffers lent, and the call's lines written; and the turns of a whole block of bytes.
#![tactic(auto)]

ghost use Rattle.std.specs.Prelude.{◌≡◌, true, false, List, ℕ, ◌+◌, ◌^◌, ◌≤◌, ◌<◌, length, drop, Some, None, MatchResult};
ghost use Rattle.commands.specs.Command.{decoded, is_step_of};
ghost use Rattle.reached.specs.Reached.{Sound};
ghost use Rattle.lines.specs.Line.{larger_of, has_room, put};
ghost use Rattle.calls.specs.Turn.{Called, called, missed, shown_of, answer_text, waits as Turn·waits, slots_of, most_of};
ghost use Rattle.calls.specs.Steps.{quiet_of, Took, Went};
ghost use Rattle.calls.specs.Stream.{machine};
ghost use Rattle.stream.specs.Blocks.{Streamed, Turn, Stays};

use commands::{Command, Found, Missing};
use lane::{Answer, Lane, Reply, StepArgs};
use refusals::Refusal;
use shared::{Next, Out};
use stream::{Ran, Station, Stop, Turned};

// ---- one command

pub fn is_step(k: Found) -> bool
    ensures { result ≡ is_step_of k }
{
    matches!(k, Ok(Command::Step(_)))
}

// The reply to what is no command: refusal 1 or 2.
pub fn missed(m: Missing) -> Reply
    ensures { result ≡ missed m }
{
    match m {
        Missing::End => Ok(Next::Stay),
        Missing::Unknown => Err(Refusal::Unknown),
        Missing::Short => Err(Refusal::Short),
    }
}

// The lane's answer to a command that is no step, or refusal 1 or 2. The FSK buffer is not written.
#[tactic(auto, unfolding(crate::specs::Turn::called))]
pub fn call_other(l: Lane, k: Found, ook: &mut [u32], fsk: &[u32]) -> Answer
    ensures { is_step_of k ≡ false → ◌≡◌ {A = Called} (result, ook.new, fsk.now) (called (l, ook.old, fsk.now) k) }
{
    match k {
        Ok(Command::Open(p) | Command::OpenCarry(p)) => lane::open(l, p),
        Ok(Command::Begin(b)) => lane::begin(l, b, ook, fsk),
        Ok(Command::Close) => lane::close(l, ook, fsk),
        Ok(Command::Step(_)) => Answer {
            reply: Ok(Next::Stay),
            lane: l,
        },
        Err(m) => Answer {
            reply: missed(m),
            lane: l,
        },
    }
}

// The lane's answer to a command, or refusal 1 or 2.
#[tactic(auto, unfolding(crate::specs::Turn::called))]
pub fn call(l: Lane, k: Found, ook: &mut [u32], fsk: &mut [u32]) -> Answer
    ensures { ◌≡◌ {A = Called} (result, ook.new, fsk.new) (called (l, ook.old, fsk.old) k) }
{
    match k {
        Ok(Command::Step(s)) => step::step(l, s, ook, fsk),
        _ => call_other(l, k, ook, fsk),
    }
}

// The part of a record that a call prints: none where it is refused, whatever the lane still holds.
pub fn shown<'a, E: Copy>(
    r: Result<Next, E>,
    l: Lane,
    o: Out,
    ook: &'a [u32],
    fsk: &'a [u32],
) -> &'a [u32]
    ensures { result.now ≡ shown_of r l o ook.now fsk.now }
{
    if r.is_err() {
        return &ook[..0];
    }
    lane::part(l, o, ook, fsk)
}

// Writes the lines of a call: its reply, and the two records of the lane that it returned with their parts of the buffers.
fn put_answer<'a>(
    r: Reply,
    l: &Lane,
    ook: &'a [u32],
    fsk: &'a [u32],
    text: &mut [u8],
    at: usize,
) -> usize
    requires { has_room (larger_of (length (shown_of r l.now l.now.burst.out_fsk ook.now fsk.now)) (length (shown_of r l.now l.now.burst.out_ook ook.now fsk.now))) (length text.old) at ≡ true }
    ensures { ◌≡◌ {A = ℕ × List ℕ} (result, text.new) (put (answer_text r l.now ook.now fsk.now) (at, text.old)) }
{
    let f = l.burst.out_fsk;
    let o = l.burst.out_ook;
    let fs = shown(r, *l, f, ook, fsk);
    let os = shown(r, *l, o, ook, fsk);
    lines::call_lines(r.map_err(u32::from), f, fs, o, os, l.last, text, at).unwrap_or(at)
}

// ---- commands of a stream

// Where some commands lead: the place after them, and what the last of them answers.
#[derive(Clone, Copy)]
pub struct Past {
    pub used: usize,
    pub reply: Reply,
}

// Whether a call prints nothing: it stays, and decides no record. It takes the two records' states, since
// the loop over steps has them in a `step::Core`, and its callers in a `Lane`. As `shown`, it holds for any
// refusals, not for ours alone: a narrower type would ask more of who calls it.
pub fn is_quiet<E: Copy>(r: Result<Next, E>, f: u32, o: u32) -> bool
    ensures { result ≡ quiet_of r f o }
{
    match r {
        Ok(Next::Stay) => (f != 1) & (o != 1),
        Ok(Next::Idle | Next::IdleAt(_)) | Err(_) => false,
    }
}

// The steps from a place on, where one is, up to the first that prints: core and arrays are changed in place. `step_at` says which step
// stands at a place, and each takes `size` bytes. A sound lane never meets refusal 4, so it is not asked for. Where the steps end is
// known only at each place, by its byte and by what the step before it answered, so there are no parts for a `for` to go through.
pub fn steps<F: Fn(usize) -> Option<StepArgs>>(
    step_at: F,
    size: usize,
    lane: &mut Lane,
    from: usize,
    ook: &mut [u32],
    fsk: &mut [u32],
) -> Past
    requires { ((at : ℕ) → F.pre step_at at) × ((at : ℕ) (b : StepArgs) → F.post step_at at (Some b) → at + size < 2 ^ 64) × (0 < size) × (F.post step_at from None → ⊥) × Sound lane.old }
    ensures { Went (λ at b. F.post step_at at (Some b)) size (lane.old, ook.old, fsk.old) from result.used result.reply (lane.new, ook.new, fsk.new) }
{
    let mut c = step::core_of(*lane);
    let mut es = step::envelopes(*lane);
    let mut re = step::reals(*lane);
    let mut im = step::imaginaries(*lane);
    let mut ring = lane.ring;
    let mut cs = lane.burst.frame.cand.cand_f;
    let mut used = from;
    let mut reply = Ok(Next::Stay);
    while let Some(b) = step_at(used) {
        let a = step::step_core(
            c, b, &mut es, &mut re, &mut im, &mut ring, &mut cs, ook, fsk,
        );
        reply = a.reply;
        c = a.core;
        used += size;
        let quiet = is_quiet(reply, c.burst.out_fsk.state, c.burst.out_ook.state);
        if !quiet {
            break;
        }
    }
    *lane = step::joined(c, es, re, im, ring, cs);
    Past { used, reply }
}

// The command k at a place of the bytes, and where it is a step those after it up to the first that
// prints.
fn pass(lane: &mut Lane, k: Found, s: &[u8], from: usize, ook: &mut [u32], fsk: &mut [u32]) -> Past
    requires { (from < length s.now) × (k ≡ decoded (drop from s.now)) × Sound lane.old }
    ensures { Took (lane.old, ook.old, fsk.old) s.now from result.used result.reply (lane.new, ook.new, fsk.new) }
{
    if is_step(k) {
        return steps(|at| commands::step_at(s, at), 25, lane, from, ook, fsk);
    }
    let a = call_other(*lane, k, ook, fsk);
    *lane = a.lane;
    Past {
        used: match k {
            Ok(k) => from + k.size(),
            Err(_) => from,
        },
        reply: a.reply,
    }
}

// ---- a block of bytes

// The most slots of a record's part that a call prints: two for each pulse of the settings, and no
// more than the larger buffer has. Settings outside the domain print no record: each call that would
// is refused.
pub fn most_of(pulses: u32, ook: usize, fsk: usize) -> usize
    ensures { result ≡ slots_of pulses ook fsk }
{
    let slots = 2 * (pulses as usize);
    slots.min(ook.max(fsk)).min(domain::MAX_SLOTS)
}

// Whether a command is not made yet: nothing is left, or only the beginning of a command and more
// may come.
pub fn waits(last: bool, k: Found) -> bool
    ensures { result ≡ Turn·waits last k }
{
    match k {
        Err(Missing::End) => true,
        Err(Missing::Short) => !last,
        Ok(_) | Err(Missing::Unknown) => false,
    }
}

// Whether a text of `len` bytes has room at a place for any call of a lane with these buffers.
fn has_room_for(l: &Lane, ook: &[u32], fsk: &[u32], len: usize, at: usize) -> bool
    ensures { result ≡ has_room (most_of (l.now, ook.now, fsk.now)) len at }
{
    let most = most_of(l.settings.max_pulses, ook.len(), fsk.len());
    lines::has_room(most, len, at)
}

// The command at a place of the bytes and those after it up to the first that prints, and its lines: unless it waits for more
// bytes, or the text has no room for them.
fn turn(
    lane: &mut Lane,
    s: &[u8],
    from: usize,
    last: bool,
    ook: &mut [u32],
    fsk: &mut [u32],
    text: &mut [u8],
    at: usize,
) -> Result<Turned, Stop>
    requires { Sound lane.old × (from < length s.now) × (at ≤ length text.old) }
    ensures turned { MatchResult result (λ z. Turn machine (lane.old, ook.old, fsk.old) s.now last from at text.old z (lane.new, ook.new, fsk.new) text.new) (λ stop. Stays machine (lane.old, ook.old, fsk.old) s.now last from at text.old stop (lane.new, ook.new, fsk.new) text.new) }
    ensures sound { Sound lane.new }
{
    let k = commands::decode_at(s, from);
    if waits(last, k) {
        return Err(Stop::Waiting);
    }
    if !has_room_for(lane, ook, fsk, text.len(), at) {
        return Err(Stop::NoRoom);
    }
    let g = pass(lane, k, s, from, ook, fsk);
    let at = put_answer(g.reply, lane, ook, fsk, text, at);
    Ok(Turned { used: g.used, at })
}

// A lane with its two buffers, which are lent.
#[derive(Drop)]
pub struct Lent<'a, 'b> {
    pub lane: Lane,
    pub ook: &'a mut [u32],
    pub fsk: &'b mut [u32],
}

impl<'a, 'b> Station for Lent<'a, 'b> {
    ghost use Rattle.reached.specs.Reached.{Sound};
    ghost use Rattle.calls.specs.Stream.{machine as program};
    ghost use Rattle.calls.specs.Steps.{state_of, buffers_of};
    ghost use Rattle.calls.specs.Orderly.{orderly_if};
    ghost use Rattle.std.specs.Prelude.{refl};

    ghost machine = { program };

    ghost state = { state_of };

    ghost is_sound = { λ s. Sound s.lane };

    ghost lent = { buffers_of };

    fn turn(
        &mut self,
        s: &[u8],
        from: usize,
        last: bool,
        text: &mut [u8],
        at: usize,
    ) -> Result<Turned, Stop> {
        let Lent { lane, ook, fsk } = self;
        turn(lane, s, from, last, ook, fsk, text, at)
    }

    // `refl`: where more may come, the beginning of a command is waited for.
    ghost orderly = { orderly_if refl };
}

// The turns of a block of bytes by a lane with its buffers, up to where they stop. `last` says that no
// byte will come after the block.
pub fn block(
    lane: Lane,
    s: &[u8],
    last: bool,
    ook: &mut [u32],
    fsk: &mut [u32],
    text: &mut [u8],
) -> (Lane, Ran)
    requires { Sound lane }
    ensures streamed { Streamed machine (lane, ook.old, fsk.old) s.now last result.1 (result.0, ook.new, fsk.new) text.new }
    ensures sound { Sound result.0 }
{
    let mut station = Lent { lane, ook, fsk };
    let ran = stream::block(&mut station, s, last, text);
    (station.lane, ran)
}
