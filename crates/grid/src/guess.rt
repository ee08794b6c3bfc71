// The guesses of a frame's symbol and the grid of the smallest cost (document 01, "Grid"). The guesses are the runs of one symbol and
// their mean.
ghost use Rattle.std.specs.Prelude.{◌≡◌, ◌<◌};
ghost use Rattle.fit.specs.Slots.{times};
ghost use Rattle.fit.specs.Fit.{Known};
ghost use Rattle.grid.specs.Guess.{runs_step, runs_of, run_to, mean_step, mean_of, better_of, try_step, search_of, grid_of};

use fit::{Fitted, Grid};

// A grid is looked for from this many transitions on: a few can lie on a grid by chance.
const GRID_MIN: usize = 5;

// How many runs of one symbol are tried as guesses of their own, after their mean.
const GRID_CAND: usize = 8;

// ---- how many transitions there are, and the shortest run between two

// How many transitions there are, the shortest run between two, and the last transition, where there is one.
#[derive(Clone, Copy, Default)]
pub struct Runs {
    pub count: usize,
    pub shortest: f64,
    pub prev: Option<f64>,
}

impl Runs {
    // The transition x is one more, and the run before it may be the shortest.
    #[tactic(auto, unfolding(crate::specs::Guess::shorter_of, crate::specs::Guess::runs_step))]
    fn runs_step(self, x: f64) -> Runs
        requires { self.count < 0xffff_ffff_ffff_ffff }
        ensures { result ≡ runs_step self x }
    {
        Runs {
            count: self.count + 1,
            shortest: self
                .prev
                .map_or(self.shortest, |tp| arith::min(self.shortest, x - tp)),
            prev: Some(x),
        }
    }
}

// The count and the shortest run of the transitions.
pub fn runs_of(ends: &[u32]) -> Runs
    ensures { result ≡ runs_of (times 0 ends.now) }
{
    let none = Runs {
        shortest: f64::INFINITY,
        ..Runs::default()
    };
    fit::transitions(ends, none, Runs::runs_step)
}

// ---- the mean of the runs of one symbol

// A run shorter than this times the shortest is one symbol long.
const ONE_SYMBOL: f64 = 1.5;

// The length of the run from the transition before to the transition x, where it is one symbol long. At the first transition no run
// ends.
#[tactic(auto, unfolding(crate::specs::Guess::run_to))]
fn run_to(shortest: f64, prev: Option<f64>, x: f64) -> Option<f64>
    ensures { result ≡ run_to shortest prev x }
{
    let d = x - prev?;
    (d < ONE_SYMBOL * shortest).then_some(d)
}

// The runs of one symbol: their sum and how many; and the last transition, where there is one.
#[derive(Clone, Copy, Default)]
pub struct Mean {
    pub sum: f64,
    pub n: f64,
    pub prev: Option<f64>,
}

impl Mean {
    // The run to the transition x is added where it is one symbol long.
    #[tactic(auto, unfolding(crate::specs::Guess::added_of, crate::specs::Guess::mean_step))]
    fn mean_step(self, x: f64, shortest: f64) -> Mean
        ensures { result ≡ mean_step shortest self x }
    {
        match run_to(shortest, self.prev, x) {
            Some(d) => Mean {
                sum: self.sum + d,
                n: self.n + 1.0,
                prev: Some(x),
            },
            None => Mean {
                prev: Some(x),
                ..self
            },
        }
    }
}

// The runs of one symbol. Their mean is the first guess: the slicer moves upper and lower runs in opposite directions, which it evens out.
fn mean_of(ends: &[u32], shortest: f64) -> Mean
    ensures { result ≡ mean_of shortest (times 0 ends.now) }
{
    fit::transitions(ends, Mean::default(), |s, x| s.mean_step(x, shortest))
}

// ---- the grid of the smallest cost

// The grid of the smaller cost, the first of two alike.
#[tactic(auto, unfolding(crate::specs::Guess::better_of))]
fn better(grid: Option<Grid>, g: Option<Grid>) -> Option<Grid>
    ensures { result ≡ better_of grid g }
{
    let (Some(best), Some(new)) = (grid, g) else {
        return grid.or(g);
    };
    if new.cost < best.cost { g } else { grid }
}

// How many runs of one symbol were tried, the best grid so far, and the last transition, where there is one.
#[derive(Clone, Copy, Default)]
pub struct Tries {
    pub tried: usize,
    pub grid: Option<Grid>,
    pub prev: Option<f64>,
}

impl Tries {
    // The run to the transition x is tried as a guess where it is one symbol long, while fewer than GRID_CAND were.
    #[tactic(auto, unfolding(crate::specs::Guess::tried_of, crate::specs::Guess::try_step))]
    fn try_step(self, x: f64, ends: &[u32], mean: Fitted, shortest: f64) -> Tries
        requires { Known ends.now mean }
        ensures { result ≡ try_step (times 0 ends.now) shortest self x }
    {
        match run_to(shortest, self.prev, x) {
            Some(guess) if self.tried < GRID_CAND => Tries {
                tried: self.tried + 1,
                grid: better(self.grid, fit::grid_fit(ends, mean, guess)),
                prev: Some(x),
            },
            _ => Tries {
                prev: Some(x),
                ..self
            },
        }
    }
}

// The best grid that a guess leads to: first the mean of the one-symbol runs is tried, then up to GRID_CAND of these runs, one by one.
fn search(ends: &[u32], shortest: f64, m: Mean) -> Option<Grid>
    ensures { result ≡ search_of (times 0 ends.now) shortest m }
{
    let line = fit::fit_with(ends, m.sum / m.n);
    let grid = fit::second_fit(ends, line);
    let mean = Fitted { line, grid };
    let first = Tries {
        grid,
        ..Tries::default()
    };
    fit::transitions(ends, first, |s, x| s.try_step(x, ends, mean, shortest)).grid
}

// The grid of a frame: none where it has fewer than GRID_MIN transitions or no run of one symbol.
#[tactic(auto, unfolding(crate::specs::Guess::grid_of))]
pub fn grid_of(ends: &[u32], runs: Runs) -> Option<Grid>
    ensures { result ≡ grid_of (times 0 ends.now) runs }
{
    let m = mean_of(ends, runs.shortest);
    if GRID_MIN <= runs.count && m.n > 0.0 {
        search(ends, runs.shortest, m)
    } else {
        None
    }
}
