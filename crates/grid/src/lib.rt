// The widths of an FSK frame (document 01, "Grid"; `fsk_widths` of the Rust): the ends of its runs become widths in whole steps, on the
// grid of the frame's symbol clock where its transitions lie on one. A slot holds 64ths of a step at entry (`arith::Fix64`) and whole
// steps at exit (`arith::Steps`).
#![tactic(auto)]

ghost use Rattle.std.specs.Prelude.{◌≡◌};
ghost use Rattle.ieee.specs.Constants.{zero64};
ghost use Rattle.fit.specs.Slots.{times};
ghost use Rattle.grid.specs.Widths.{end_of, clock_of, place_of, at_start, on_grid_of, measured_of, frame_clock, fsk_widths_of};

use fit::{Grid, Last};

mod guess;

// ---- the measured times

// Without a grid each end is rounded as it was measured, and a width is the difference of two.
fn measured(slots: &mut [u32])
    ensures { slots.new ≡ measured_of zero64 slots.old }
{
    let mut before: f64 = 0.0;
    for v in slots {
        let r = ieee::round(fit::time_of(arith::Fix64(*v)));
        *v = arith::width(before, r).0;
        before = r;
    }
}

// ---- the boundaries on the grid

// The grid after the start of the frame: the steps of a symbol, the symbols before the first transition and up to the frame's end, and
// how many transitions there are.
#[derive(Clone, Copy)]
pub struct Clock {
    pub t: f64,
    pub lead: f64,
    pub stop: f64,
    pub n_tr: usize,
}

// The boundary before a slot: its 64ths, its time on the grid, how many transitions were seen, and the last of them.
#[derive(Clone, Copy, Default)]
pub struct Place {
    pub before_raw: u32,
    pub before: f64,
    pub seen: usize,
    pub last: Last,
}

// The time of the frame's end.
#[tactic(auto, unfolding(crate::specs::Widths::end_of))]
fn end_of(slots: &[u32]) -> f64
    ensures { result ≡ end_of slots.now }
{
    slots.last().map_or(0.0, |&v| fit::time_of(arith::Fix64(v)))
}

// The frame's own two ends come from the envelope, which tells them less well than the tone does: each is put a whole number of
// symbols, one or more, from the nearest transition.
#[tactic(auto, unfolding(crate::specs::Widths::clock_of))]
fn clock_of(ends: &[u32], end: f64, g: Grid, n_tr: usize) -> Clock
    ensures { result ≡ clock_of g.a g.t n_tr (times 0 ends.now) end }
{
    let s = fit::fit_sums(ends, g.t);
    let lead = fit::symbols(g.a, g.t);
    let tail = fit::symbols(end - (g.a + s.last.k * g.t), g.t);
    Clock {
        t: g.t,
        lead,
        stop: lead + s.last.k + tail,
        n_tr,
    }
}

impl Place {
    // The boundary after the slot v.
    #[tactic(auto, unfolding(crate::specs::Widths::place_of))]
    fn place_after(self, c: Clock, v: u32) -> Place
        ensures { result ≡ place_of c self v }
    {
        if v <= self.before_raw {
            return Place {
                before_raw: v,
                ..self
            };
        }
        if self.seen < c.n_tr {
            let x = fit::time_of(arith::Fix64(v));
            let k = self.last.k_after(x, c.t);
            return Place {
                before_raw: v,
                before: ieee::round((c.lead + k) * c.t),
                seen: self.seen + 1,
                last: Last { k, prev: Some(x) },
            };
        }
        Place {
            before_raw: v,
            before: ieee::round(c.stop * c.t),
            ..self
        }
    }
}

// Every end, one after another, takes its place on the grid, and the frame's end its own.
fn on_grid(slots: &mut [u32], c: Clock)
    ensures { slots.new ≡ on_grid_of c at_start slots.old }
{
    let mut p = Place::default();
    for v in slots {
        let before = p.before;
        p = p.place_after(c, *v);
        *v = arith::width(before, p.before).0;
    }
}

// ---- the whole

// The clock of a frame whose transitions lie on a grid.
fn frame_clock(slots: &[u32]) -> Option<Clock>
    ensures { result ≡ frame_clock slots.now }
{
    let ends = &slots[..fit::last_rise(slots)];
    let runs = guess::runs_of(ends);
    let g = guess::grid_of(ends, runs)?;
    Some(clock_of(ends, end_of(slots), g, runs.count))
}

// The run ends of a finished frame become widths in whole steps.
pub fn fsk_widths(slots: &mut [u32])
    ensures { slots.new ≡ fsk_widths_of slots.old }
{
    match frame_clock(slots) {
        Some(c) => on_grid(slots, c),
        None => measured(slots),
    }
}
