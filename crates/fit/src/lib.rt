// The transitions of an FSK frame and the grid that fits them (document 01, "Grid"; `transitions`, `symbols` and `grid_fit` of the
// Rust). A slot holds the end of a run, in 64ths of a step after the frame's start (`arith::Fix64`).
#![tactic(auto)]

ghost use Rattle.std.specs.Prelude.{◌≡◌, ◌≤◌, length};
ghost use Rattle.std.specs.List.{FoldsTo};
ghost use Rattle.std.specs.Float.{binary64};
ghost use Rattle.std.specs.Float.Ieee.{of_bits};
ghost use Rattle.fit.specs.Slots.{time_of, last_rise, times, CallableInFold, IsSomeOf, TryFoldsTo};
ghost use Rattle.fit.specs.Fit.{symbols_of, k_after, fit_step, sums_of, line_with, line_of, fit_of, run_after, check_step, check_of, second_of, Known, grid_fit_of};

// How far a transition may lie from its place on the symbol clock, and a run's length from its number of symbols, in symbols.
// Rising and falling transitions come late by different amounts, and a run has one of each: hence more for a run.
const GRID_TOL: f64 = 0.25;

const RUN_TOL: f64 = 0.4;

// ---- the transitions

// The 64ths of a slot as steps.
#[tactic(auto, unfolding(crate::specs::Slots::time_of))]
pub fn time_of(v: arith::Fix64) -> f64
    ensures { result ≡ time_of v }
{
    f64::from(v.0) / arith::RUN_FIX
}

// The index of the last slot that is above the one before it, or 0: the transitions lie before it.
pub fn last_rise(slots: &[u32]) -> usize
    ensures { (result ≡ last_rise slots.now) × (result ≤ length slots.now) }
{
    (1..slots.len())
        .rev()
        .find(|&i| slots[i - 1] < slots[i])
        .unwrap_or(0)
}

// `step` over the transitions, up to the first where it gives none: a slot that is above the one before it ends a run, and its time is a
// transition.
fn try_transitions<S, F: Fn(S, f64) -> Option<S>>(ends: &[u32], first: S, step: F) -> Option<S>
    requires { CallableInFold (F.pre step) (IsSomeOf (F.post step)) first (times 0 ends.now) }
    ensures { TryFoldsTo (F.post step) first (times 0 ends.now) result }
{
    let mut s = first;
    let mut before: u32 = 0;
    for &v in ends {
        if before < v {
            s = step(s, time_of(arith::Fix64(v)))?;
        }
        before = v;
    }
    Some(s)
}

// `step` over all transitions.
pub fn transitions<S, F: Fn(S, f64) -> S>(ends: &[u32], first: S, step: F) -> S
    requires { CallableInFold (F.pre step) (F.post step) first (times 0 ends.now) }
    ensures { FoldsTo (F.post step) first (times 0 ends.now) result }
{
    let always = |s: S, x: f64| -> Option<S>
        requires { F.pre step s x }
    { Some(step(s, x)) };
    try_transitions(ends, first, always).unwrap()
}

// ---- the fit of a line

// How many symbols of t steps a run of d steps stands for, to the nearest and at least one.
#[tactic(auto, unfolding(crate::specs::Fit::symbols_of))]
pub fn symbols(d: f64, t: f64) -> f64
    ensures { result ≡ symbols_of d t }
{
    arith::max(ieee::round(d / t), 1.0)
}

// The last transition, where there is one, and its symbol number, 0 before the first.
#[derive(Clone, Copy, Default)]
pub struct Last {
    pub k: f64,
    pub prev: Option<f64>,
}

impl Last {
    // The symbol number of the transition x, which is one run further.
    pub fn k_after(self, x: f64, t: f64) -> f64
        ensures { result ≡ k_after self.prev self.k x t }
    {
        match self.prev {
            Some(tp) => self.k + symbols(x - tp, t),
            None => self.k,
        }
    }

    // The same, where the run that ends at x is near its whole number of symbols of t steps; at the first transition no run ends.
    #[tactic(auto, using(arith::proofs::Magnitude::is_magnitude), unfolding(crate::specs::Fit::k_after, crate::specs::Fit::run_near, crate::specs::Fit::run_after))]
    fn run_after(self, x: f64, t: f64) -> Option<f64>
        ensures { result ≡ run_after self.prev self.k x t }
    {
        let Some(tp) = self.prev else {
            return Some(self.k);
        };
        let d = x - tp;
        let n = symbols(d, t);
        ((d - n * t).abs() <= RUN_TOL * t).then_some(self.k + n)
    }
}

// The sums of a fit over the transitions so far, by the names of the Rust: of 1, k, k * k, t and k * t, where k is the symbol number of
// the transition at t.
#[derive(Clone, Copy, Default)]
pub struct Sums {
    pub n: f64,
    pub sk: f64,
    pub skk: f64,
    pub st: f64,
    pub skt: f64,
    pub last: Last,
}

// The line a + k t.
#[derive(Clone, Copy)]
pub struct Line {
    pub a: f64,
    pub t: f64,
}

impl Sums {
    // The transition x is one more, for the symbol t steps long.
    #[tactic(auto, unfolding(crate::specs::Fit::fit_step))]
    fn fit_step(self, x: f64, t: f64) -> Sums
        ensures { result ≡ fit_step t self x }
    {
        let k = self.last.k_after(x, t);
        Sums {
            n: self.n + 1.0,
            sk: self.sk + k,
            skk: self.skk + k * k,
            st: self.st + x,
            skt: self.skt + k * x,
            last: Last { k, prev: Some(x) },
        }
    }

    // The line of the symbol t through the sums: none where t is not above 0.
    #[tactic(auto, unfolding(crate::specs::Fit::line_with))]
    fn line_with(self, t: f64) -> Option<Line>
        ensures { result ≡ line_with self t }
    {
        (t > 0.0).then_some(Line {
            a: (self.st - t * self.sk) / self.n,
            t,
        })
    }

    // The least-squares line through the sums, where it rises.
    #[tactic(auto, unfolding(crate::specs::Fit::line_of))]
    fn line(self) -> Option<Line>
        ensures { result ≡ line_of self }
    {
        let det = self.n * self.skk - self.sk * self.sk;
        if det <= 0.0 {
            return None;
        }
        self.line_with((self.n * self.skt - self.sk * self.st) / det)
    }
}

// The sums of all transitions.
pub fn fit_sums(ends: &[u32], t: f64) -> Sums
    ensures { result ≡ sums_of t (times 0 ends.now) }
{
    transitions(ends, Sums::default(), |s, x| s.fit_step(x, t))
}

// The line of the transitions, their runs counted in symbols of t steps.
#[tactic(auto, unfolding(crate::specs::Fit::fit_of))]
pub fn fit_with(ends: &[u32], t: f64) -> Option<Line>
    ensures { result ≡ fit_of (times 0 ends.now) t }
{
    fit_sums(ends, t).line()
}

// ---- the check of a grid

// The grid a + k t and its cost.
#[derive(Clone, Copy)]
pub struct Grid {
    pub a: f64,
    pub t: f64,
    pub cost: f64,
}

// What the check of a grid found so far: the sum of the squared distances in symbols, and the last transition.
#[derive(Clone, Copy, Default)]
pub struct Check {
    pub cost: f64,
    pub last: Last,
}

impl Check {
    // The transition x, where the run before it is near its whole number of symbols and x is near its grid point.
    #[tactic(auto, using(arith::proofs::Magnitude::is_magnitude), unfolding(crate::specs::Fit::check_step))]
    fn check_step(self, x: f64, a: f64, t: f64) -> Option<Check>
        ensures { result ≡ check_step a t self x }
    {
        let k = self.last.run_after(x, t)?;
        let r = (x - (a + k * t)) / t;
        (r.abs() <= GRID_TOL).then_some(Check {
            cost: self.cost + r * r,
            last: Last { k, prev: Some(x) },
        })
    }
}

// The grid a + k t, if all transitions and all runs keep within the two limits. The first that does not ends the walk.
fn grid_check(ends: &[u32], a: f64, t: f64) -> Option<Grid>
    ensures { result ≡ check_of (times 0 ends.now) a t }
{
    let c = try_transitions(ends, Check::default(), |c, x| c.check_step(x, a, t))?;
    Some(Grid { a, t, cost: c.cost })
}

// ---- the grid of a guess

// The check of the fit with the first fit's symbol.
#[tactic(auto, unfolding(crate::specs::Fit::second_of, crate::specs::Fit::check_line))]
pub fn second_fit(ends: &[u32], first: Option<Line>) -> Option<Grid>
    ensures { result ≡ second_of (times 0 ends.now) first }
{
    let second = fit_with(ends, first?.t)?;
    grid_check(ends, second.a, second.t)
}

// The first fit of the mean, and the grid that its second fit gave.
#[derive(Clone, Copy)]
pub struct Fitted {
    pub line: Option<Line>,
    pub grid: Option<Grid>,
}

// The pattern of a number: no other number has it.
fn pattern(t: f64) -> u64
    ensures { of_bits binary64 result ≡ t }
{
    ieee::bits_of_f64(t)
}

// The grid by least squares: the guess tells how many symbols each run has, a line through the transitions gives a better symbol, and with
// that one the runs are counted and fitted again. Where the first fit has the symbol of the mean's first fit, the second is the mean's
// too, and its grid is known.
#[tactic(auto, unfolding(crate::specs::Fit::grid_fit_of))]
pub fn grid_fit(ends: &[u32], mean: Fitted, guess: f64) -> Option<Grid>
    requires { Known ends.now mean }
    ensures { result ≡ grid_fit_of (times 0 ends.now) guess }
{
    let first = fit_with(ends, guess);
    if first.map(|l| pattern(l.t)) == mean.line.map(|l| pattern(l.t)) {
        return mean.grid;
    }
    second_fit(ends, first)
}
