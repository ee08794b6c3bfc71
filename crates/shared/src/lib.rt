// What the whole lane shares: settings, answers and records, each by value.
#![tactic(auto)]

ghost use Rattle.std.specs.Prelude.{◌≡◌, slice_set};
ghost use Rattle.ieee.specs.Constants.{zero32};
ghost use Rattle.shared.specs.Answers.{next_number_of, next_envelope_of, is_stay_of, carrier_kind_of, carrier_first_of, carrier_second_of};
ghost use Rattle.shared.specs.Core.{whole_out, numbered};
ghost use Rattle.shared.specs.declared.Carrier.TheVariants as Carrier;
ghost use Rattle.shared.specs.Params.{fsk_min_of, refine_at_of};

// ---- what the lane shares

// mode: 0 OOK, 1 FSK, 2 Auto. carry: 1 where widths are taken by boundaries. Numbers, here and in the structs of a lane: what a caller
// hands in may hold any number, and refusal 3 or 4 names one that is none of these; a bool or an enum would ask more of the caller.
#[derive(Clone, Copy, Default)]
pub struct Settings {
    pub mode: u32,
    pub min_steps: u32,
    pub gap_steps: u32,
    pub pre_timeout: u32,
    pub long_steps: u32,
    pub max_pulses: u32,
    pub alpha: f32,
    pub gap_ratio: f32,
    pub fsk_delta: f32,
    pub fsk_split: f32,
    pub carry: u32,
}

// What a call asks for: to stay, to be idle, or to be idle at an envelope.
#[derive(Clone, Copy)]
pub enum Next {
    Stay,
    Idle,
    IdleAt(f32),
}

// A record's carrier: an angle, or the two sums whose angle it is, real first.
#[derive(Clone, Copy)]
pub enum Carrier {
    Angle(f32),
    Vector(f32, f32),
}

// The record of a train or a frame; state is 1 where it decides one, cut is 0 or 1, fsk is its kind. The serial
// is that of the call that returned it; 0, in a record of no call, matches no lane.
#[derive(Clone, Copy, Default)]
pub struct Out {
    pub index: u64,
    pub end: u64,
    pub state: u32,
    pub cut: u32,
    pub pairs: u32,
    pub level: f32,
    pub fsk: u32,
    pub carrier: Carrier,
    pub serial: u64,
}

// The same in the core, where nothing has a serial yet: numbers as in Settings, and for its reason. A struct of its own: as one struct over
// the type of the serial, `()` here, each record made in the core would state a field that it has not; `whole_out` and `core_out` are the
// price, nine fields one by one.
#[derive(Clone, Copy, Default)]
pub struct OutCore {
    pub index: u64,
    pub end: u64,
    pub state: u32,
    pub cut: u32,
    pub pairs: u32,
    pub level: f32,
    pub fsk: u32,
    pub carrier: Carrier,
}

// ---- the pulse buffers

// A slot past the end is not written. An index test: of a slice whose `get_mut` gave None nothing is known, not even that the slice is
// unchanged.
pub fn put(pairs: &mut [u32], i: usize, v: u32)
    ensures { pairs.new ≡ slice_set pairs.old i v }
{
    if i < pairs.len() {
        pairs[i] = v;
    }
}

// ---- document 01's numbers of the two enums

impl Next {
    // 0, 1 or 2, as a caller in C reads what a call asks for.
    pub fn number(self) -> u32
        ensures { result ≡ next_number_of self }
    {
        match self {
            Next::Stay => 0,
            Next::Idle => 1,
            Next::IdleAt(_) => 2,
        }
    }

    // The envelope to be idle at; 0 where none is asked for.
    pub fn envelope(self) -> f32
        ensures { result ≡ next_envelope_of self }
    {
        match self {
            Next::Stay | Next::Idle => 0.0,
            Next::IdleAt(e) => e,
        }
    }

    // Whether the burst goes on.
    pub fn is_stay(self) -> bool
        ensures { result ≡ is_stay_of self }
    {
        matches!(self, Next::Stay)
    }
}

impl Default for Carrier {
    ghost is_default = { λ c. c ≡ Carrier.Angle zero32 };

    fn default() -> Carrier {
        Carrier::Angle(0.0)
    }
}

impl Carrier {
    // 1 for an angle, 0 for the two sums.
    pub fn kind(self) -> u32
        ensures { result ≡ carrier_kind_of self }
    {
        match self {
            Carrier::Angle(_) => 1,
            Carrier::Vector(_, _) => 0,
        }
    }

    // The angle, or the real sum.
    pub fn first(self) -> f32
        ensures { result ≡ carrier_first_of self }
    {
        match self {
            Carrier::Angle(a) => a,
            Carrier::Vector(re, _) => re,
        }
    }

    // 0 beside an angle, or the imaginary sum.
    pub fn second(self) -> f32
        ensures { result ≡ carrier_second_of self }
    {
        match self {
            Carrier::Angle(_) => 0.0,
            Carrier::Vector(_, im) => im,
        }
    }
}

// The record of a caller, made from that of the core and its serial. No `From`, here and on the way back: one way takes a serial.
pub fn whole_out(o: OutCore, serial: u64) -> Out
    ensures { result ≡ numbered serial (whole_out o) }
{
    Out {
        index: o.index,
        end: o.end,
        state: o.state,
        cut: o.cut,
        pairs: o.pairs,
        level: o.level,
        fsk: o.fsk,
        carrier: o.carrier,
        serial,
    }
}

// The record without its serial.
pub fn core_out(o: Out) -> OutCore
    ensures { numbered o.serial (whole_out result) ≡ o }
{
    OutCore {
        index: o.index,
        end: o.end,
        state: o.state,
        cut: o.cut,
        pairs: o.pairs,
        level: o.level,
        fsk: o.fsk,
        carrier: o.carrier,
    }
}

// ---- what follows min_steps

// Tests: as `(min_steps / 2).clamp(2, 8)` a call of the FSK stream takes 1.1 % more instructions.
pub fn fsk_min(min_steps: u32) -> u32
    ensures { result ≡ fsk_min_of min_steps }
{
    if min_steps < 4 {
        2
    } else if min_steps < 16 {
        min_steps / 2
    } else {
        8
    }
}

// The samples after which an edge is refined: min_steps, and no more than the ring of 32 holds beside the samples before the edge.
pub fn refine_at(min_steps: u32) -> u32
    ensures { result ≡ refine_at_of min_steps }
{
    min_steps.min(26)
}
