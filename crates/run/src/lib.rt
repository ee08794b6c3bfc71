// The run machine that the envelope, the presence and the frequency of a frame share: a level lasts for a run of samples, and a run
// that is over before it counts is a glitch, which joins the run before it. Document 01 has it once for each of the three.
#![tactic(auto)]

ghost use Rattle.std.specs.Prelude.{◌≡◌};
ghost use Rattle.run.specs.Run.{edge_at, is_high_of, meets_of, begins_of, lengthen_of, rejoin_of, begin_run_of, moved_of, due_of, confirm_if_of, start_run_of};

// A run under way (flags are numbers, as in shared::Settings), with what a glitch needs to go back to the run before. The Rust has these six
// for each of the three, as level, run_len, confirmed, prev_len, t_run, t_prev (envelope), p_level, p_run, p_confirmed, p_prev, p_t_run,
// p_t_prev (presence) and fsk_level, fsk_run, fsk_confirmed, fsk_prev, ft_run, ft_prev (frequency).
#[derive(Clone, Copy, Default)]
pub struct Run {
    // 1 where the run is high, 0 where it is low.
    pub level: u32,
    // Its samples so far.
    pub run_len: u32,
    // 1 once it has lasted long enough to count; until then a sample of the other level makes it a glitch.
    pub confirmed: u32,
    // The samples of the run before it: a glitch gives them back.
    pub prev_len: u32,
    // Where it and the run before it began, in steps; the edge between two samples.
    pub t_run: f64,
    pub t_prev: f64,
}

// The crossing of a threshold between the sample before and this one: the edge of a run that begins here, worked out only where one does.
#[derive(Clone, Copy)]
pub struct Crossing {
    pub idx: u64,
    pub before: f32,
    pub at: f32,
    pub thr: f32,
}

impl Crossing {
    #[tactic(auto, unfolding(crate::specs::Run::edge_at))]
    pub fn edge_at(self) -> f64
        ensures { result ≡ edge_at self }
    {
        arith::edge(self.idx, arith::cross(self.before, self.at, self.thr))
    }
}

// What a sample does to a run: it is of the run's level, or it ends a run that is too short to count, a glitch, or a run begins with it.
// Whoever moves a run decides this once for a sample and hands it on to all that moves with it.
#[derive(Clone, Copy)]
pub enum Move {
    Same,
    Glitch,
    Begins,
}

impl Move {
    #[inline(always)]
    pub fn begins(self) -> bool
        ensures { result ≡ begins_of self }
    {
        matches!(self, Move::Begins)
    }
}

// The level of a sample: high above the threshold, and at it too where the run is high (up), so that noise there makes no runs.
#[tactic(auto, unfolding(crate::specs::Run::is_high_of))]
pub fn is_high(up: bool, x: f32, thr: f32) -> bool
    ensures { result ≡ is_high_of up x thr }
{
    if up { x >= thr } else { x > thr }
}

impl Run {
    // What a sample of this level, 0 or 1, does to the run. A number: as a bool a call of each stream takes 3 to 4 % more instructions.
    #[inline(always)]
    pub fn meets(self, level: u32) -> Move
        ensures { result ≡ meets_of self level }
    {
        if level == self.level {
            Move::Same
        } else if self.confirmed == 0 {
            Move::Glitch
        } else {
            Move::Begins
        }
    }

    // One sample more.
    #[tactic(auto, unfolding(crate::specs::Run::lengthen_of, shared::specs::Counts::sat_add_of))]
    pub fn lengthen(self) -> Run
        ensures { result ≡ lengthen_of self }
    {
        Run {
            run_len: self.run_len.saturating_add(1),
            ..self
        }
    }

    // A glitch: the run before goes on, as if it had never ended.
    #[tactic(auto, unfolding(crate::specs::Run::rejoin_of, shared::specs::Counts::sat_add_of))]
    pub fn rejoin(self, level: u32) -> Run
        ensures { result ≡ rejoin_of self level }
    {
        Run {
            level,
            run_len: self.prev_len.saturating_add(self.run_len).saturating_add(1),
            confirmed: 1,
            t_run: self.t_prev,
            ..self
        }
    }

    // This sample is the first of a run, whose edge is at tc.
    #[tactic(auto, unfolding(crate::specs::Run::begin_run_of))]
    pub fn begin_run(self, level: u32, tc: f64) -> Run
        ensures { result ≡ begin_run_of self level tc }
    {
        Run {
            level,
            run_len: 1,
            confirmed: 0,
            prev_len: self.run_len,
            t_run: tc,
            t_prev: self.t_run,
        }
    }

    // The run after a sample of this level.
    pub fn moved(self, m: Move, level: u32, c: Crossing) -> Run
        ensures { result ≡ moved_of m self level (edge_at c) }
    {
        match m {
            Move::Same => self.lengthen(),
            Move::Glitch => self.rejoin(level),
            Move::Begins => self.begin_run(level, c.edge_at()),
        }
    }

    // Whether the run counts from this sample on.
    #[tactic(auto, unfolding(crate::specs::Run::due_of))]
    pub fn due(self, steps: u32) -> bool
        ensures { result ≡ due_of self steps }
    {
        self.confirmed == 0 && self.run_len >= steps
    }

    // The run counts, where that is due.
    pub fn confirm_if(self, due: bool) -> Run
        ensures { result ≡ confirm_if_of due self }
    {
        if due {
            Run {
                confirmed: 1,
                ..self
            }
        } else {
            self
        }
    }

    // Low and without a sample, at the time t: it counts, so that the first high sample begins a run.
    #[tactic(auto, unfolding(crate::specs::Run::start_run_of))]
    pub fn start_run(t: f64) -> Run
        ensures { result ≡ start_run_of t }
    {
        Run {
            level: 0,
            run_len: 0,
            confirmed: 1,
            prev_len: 0,
            t_run: t,
            t_prev: t,
        }
    }
}
