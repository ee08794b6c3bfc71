// A stream of commands for sixteen antennas (document 02, R-4): each is made on its antenna's lane
// with that lane's own pair of buffers, and its lines written after the antenna's number.
#![tactic(auto)]

ghost use Rattle.std.specs.Prelude.{◌≡◌, true, false, ◌&&◌, ltb, ◌+◌, ◌<◌, ◌≤◌, length};
ghost use Rattle.commands.specs.Command.{is_step_of};
ghost use Rattle.lines.specs.Line.{Put};
ghost use Rattle.lines.specs.Text.{RoomFor, Puts};
ghost use Rattle.reached.specs.Reached.{Sound};
ghost use Rattle.calls.specs.Turn.{Called, most_of};
ghost use Rattle.lane.specs.Answers.{answer_of};
ghost use Rattle.among.specs.Among.{antennas, outs, lane_at, Sized};
ghost use Rattle.stream.specs.Blocks.{Streamed};
ghost use Rattle.sixteen.specs.Sixteen.{heard_text, none_text, spoken_text, row_of, machine, at_first};
ghost use Rattle.sixteen.specs.Spoken.{Stands, one_of, Heard, spoken_room, has_tagged_room, Told, held, lanes_of, state_of, AllSound, IsSound};

use calls::Past;
use commands::{Found, Missing};
use lane::{Answer, Lane, Reply};
use lines::Text;
use refusals::Refusal;
use stream::{Ran, Station, Stop, Turned};

// A command for an antenna, and how many of the other antennas' lanes are out of idle. The bytes and the
// place stay beside it: `Stands` says in one word what an invariant would, and this has no lifetime.
#[derive(Clone, Copy)]
pub struct Asked {
    pub others: u32,
    pub antenna: usize,
    pub command: Found,
}

// ---- one antenna

// The answer to a command that is no step, and to any of an antenna that is not there.
fn call_one(q: Asked, l: Lane, ook: &mut [u32], fsk: &[u32]) -> Answer
    ensures { (is_step_of q.command && ltb q.antenna antennas) ≡ false → ◌≡◌ {A = Called} (result, ook.new, fsk.now) (one_of q (l, ook.old, fsk.now)) }
{
    if q.antenna < 16 {
        let a = calls::call_other(l, q.command, ook, fsk);
        let (reply, lane) = among::settle(l, (a.reply, a.lane), q.command, q.others);
        return Answer { reply, lane };
    }
    Answer {
        reply: among::no_antenna(q.command),
        lane: l,
    }
}

// The command at a place of the bytes, and where it is a step those of its antenna that follow, up to
// the first that prints.
fn pass(q: Asked, lane: &mut Lane, s: &[u8], from: usize, ook: &mut [u32], fsk: &mut [u32]) -> Past
    requires { Stands q s.now from × Sound lane.old }
    ensures { Heard q (lane.old, ook.old, fsk.old) s.now from result (lane.new, ook.new, fsk.new) }
{
    let fast = calls::is_step(q.command) & (q.antenna < 16);
    if fast {
        let i = q.antenna;
        return calls::steps(|at| addressed::step_for(s, at, i), 26, lane, from, ook, fsk);
    }
    let a = call_one(q, *lane, ook, fsk);
    *lane = a.lane;
    Past {
        used: match q.command {
            Ok(k) => from + addressed::size_of(k),
            Err(_) => from,
        },
        reply: a.reply,
    }
}

// Writes the lines of an antenna's call.
fn put_heard<'a>(i: usize, r: Reply, l: &Lane, ook: &'a [u32], fsk: &'a [u32], text: &mut Text)
    requires { RoomFor (spoken_room r l.now ook.now fsk.now) text.old }
    ensures { Puts (heard_text i (answer_of r l.now, ook.now, fsk.now)) (spoken_room r l.now ook.now fsk.now) text.old text.new }
{
    let f = l.burst.out_fsk;
    let o = l.burst.out_ook;
    let fs = calls::shown(r, *l, f, ook, fsk);
    let os = calls::shown(r, *l, o, ook, fsk);
    tagged::put_call(i, r.map_err(u32::from), f, fs, o, os, l.last, text);
}

// Writes the lines of what is no command: they have no antenna's number.
fn put_none(m: Missing, text: &mut Text)
    requires { RoomFor 48 text.old }
    ensures { Puts (none_text m) 48 text.old text.new }
{
    match m {
        Missing::End => {}
        Missing::Unknown => text.put_refused(Refusal::Unknown.into()),
        Missing::Short => text.put_refused(Refusal::Short.into()),
    }
}

// Whether a text of `len` bytes has room at a place for the lines of any call of an antenna whose
// parts have at most n slots each.
fn has_room(n: usize, len: usize, at: usize) -> bool
    ensures { result ≡ has_tagged_room n len at }
{
    if len < 63 {
        return false;
    }
    lines::has_room(n, len - 63, at)
}

// Writes the lines of a command that was answered so. Most steps print nothing.
fn put_spoken<'a>(q: Asked, r: Reply, l: &Lane, ook: &'a [u32], fsk: &'a [u32], text: &mut Text)
    requires { RoomFor (spoken_room r l.now ook.now fsk.now) text.old }
    ensures { Puts (spoken_text q.antenna q.command (answer_of r l.now, ook.now, fsk.now)) (spoken_room r l.now ook.now fsk.now) text.old text.new }
{
    if let Err(m) = q.command {
        return put_none(m, text);
    }
    let quiet = calls::is_quiet(r, l.burst.out_fsk.state, l.burst.out_ook.state);
    if quiet {
        return;
    }
    put_heard(q.antenna, r, l, ook, fsk, text);
}

// The same at a place of the text, and the place after the lines.
fn put_answer<'a>(
    q: Asked,
    r: Reply,
    l: &Lane,
    ook: &'a [u32],
    fsk: &'a [u32],
    text: &mut [u8],
    at: usize,
) -> usize
    requires { at + spoken_room r l.now ook.now fsk.now ≤ length text.old }
    ensures { Put (spoken_text q.antenna q.command (answer_of r l.now, ook.now, fsk.now)) (spoken_room r l.now ook.now fsk.now) at text.old result text.new }
{
    let mut t = Text::new(text, at);
    put_spoken(q, r, l, ook, fsk, &mut t);
    t.at
}

// Whether a text of `len` bytes has room at a place for any call of a lane with these buffers.
fn has_room_for(l: &Lane, ook: &[u32], fsk: &[u32], len: usize, at: usize) -> bool
    ensures { result ≡ has_tagged_room (most_of (l.now, ook.now, fsk.now)) len at }
{
    let most = calls::most_of(l.settings.max_pulses, ook.len(), fsk.len());
    has_room(most, len, at)
}

// The commands from one at a place of the bytes up to the first that prints, and its lines.
fn turn(
    q: Asked,
    lane: &mut Lane,
    s: &[u8],
    from: usize,
    ook: &mut [u32],
    fsk: &mut [u32],
    text: &mut [u8],
    at: usize,
) -> Turned
    requires { Stands q s.now from × Sound lane.old × (has_tagged_room (most_of (lane.old, ook.old, fsk.old)) (length text.old) at ≡ true) }
    ensures { Told q (lane.old, ook.old, fsk.old) s.now from at text.old result (lane.new, ook.new, fsk.new) text.new }
{
    let g = pass(q, lane, s, from, ook, fsk);
    let at = put_answer(q, g.reply, lane, ook, fsk, text, at);
    Turned { used: g.used, at }
}

// A lane with its own pair of buffers, for 2,048 pairs each.
#[derive(Clone, Copy)]
pub struct Channel {
    pub lane: Lane,
    pub ook: [u32; 4096],
    pub fsk: [u32; 4096],
}

impl Channel {
    // Whether a text of `len` bytes has room at a place for any call of the lane.
    fn has_room(&self, len: usize, at: usize) -> bool
        ensures { result ≡ has_tagged_room (most_of (held self.now)) len at }
    {
        has_room_for(&self.lane, &self.ook, &self.fsk, len, at)
    }

    fn turn(&mut self, q: Asked, s: &[u8], from: usize, text: &mut [u8], at: usize) -> Turned
        requires { Stands q s.now from × Sound self.old.lane × (has_tagged_room (most_of (held self.old)) (length text.old) at ≡ true) }
        ensures { Told q (held self.old) s.now from at text.old result (held self.new) text.new }
    {
        turn(
            q,
            &mut self.lane,
            s,
            from,
            &mut self.ook,
            &mut self.fsk,
            text,
            at,
        )
    }
}

// ---- sixteen

// The row of an antenna's lane; the first where there is no such antenna. By `channels.get_mut(i)` the case
// without a channel would name the first all the same: the machine's `most` asks a lane for a refusal's room too.
fn row_of(i: usize) -> usize
    ensures { result ≡ row_of i }
{
    if i < 16 { i } else { 0 }
}

// How many of the lanes are out of idle.
fn count_out(channels: &[Channel; 16]) -> u32
    ensures counted { result ≡ outs (lanes_of channels.now).0 }
    ensures sized { length channels.now ≡ antennas }
{
    let mut lanes = [channels[0].lane; 16];
    for (i, c) in channels.iter().enumerate() {
        lanes[i] = c.lane;
    }
    among::count_out(&lanes)
}

// Sixteen lanes, each with its own pair of buffers, and how many of them are out of idle.
#[derive(Clone, Copy)]
pub struct Antennas {
    channels: [Channel; 16],
    out: u32,
}

impl Antennas {
    // The lanes never had settings.
    pub fn new() -> Antennas
        ensures new { state_of result ≡ at_first }
        ensures sound { IsSound result }
    {
        let lane = lane::new_lane();
        let channel = Channel {
            lane,
            ook: [0; 4096],
            fsk: [0; 4096],
        };
        Antennas {
            channels: [channel; 16],
            out: among::count_out(&[lane; 16]),
        }
    }

    // Any sixteen sound lanes, as they are.
    pub fn of(channels: [Channel; 16]) -> Antennas
        requires { AllSound (lanes_of channels).0 }
        ensures state { state_of result ≡ lanes_of channels }
        ensures sound { IsSound result }
    {
        Antennas {
            channels,
            out: count_out(&channels),
        }
    }

    // An antenna's lane with its buffers, as they stand.
    pub fn channel(&self, i: usize) -> &Channel
        requires { i < antennas }
        ensures { held result.now ≡ lane_at (state_of self.now) i }
    {
        &self.channels[i]
    }
}

impl Station for Antennas {
    ghost use Rattle.std.specs.Prelude.{[]};
    ghost use Rattle.sixteen.specs.Sixteen.{machine as program};
    ghost use Rattle.sixteen.specs.Spoken.{IsSound, state_of};
    ghost use Rattle.sixteen.specs.Orderly.{orderly as keeps_order};

    ghost machine = { program };

    ghost state = { state_of };

    ghost is_sound = { IsSound };

    ghost lent = { λ _. [] };

    fn turn(
        &mut self,
        s: &[u8],
        from: usize,
        last: bool,
        text: &mut [u8],
        at: usize,
    ) -> Result<Turned, Stop> {
        let command = addressed::command_at(s, from);
        if calls::waits(last, command) {
            return Err(Stop::Waiting);
        }
        let antenna = addressed::antenna_at(s, from);
        let j = row_of(antenna);
        if !self.channels[j].has_room(text.len(), at) {
            return Err(Stop::NoRoom);
        }
        let others = self.out - u32::from(among::is_out(&self.channels[j].lane));
        let q = Asked {
            others,
            antenna,
            command,
        };
        let channel = &mut self.channels[j];
        let t = channel.turn(q, s, from, text, at);
        self.out = others + u32::from(among::is_out(&channel.lane));
        Ok(t)
    }

    ghost orderly = { keeps_order };
}

// ---- sixteen whose buffers are lent

// Sixteen lanes, a row of each of two lent arrays for each, and how many of the lanes are out of idle.
#[derive(Drop)]
struct LentRows<'a, 'b> {
    lanes: [Lane; 16],
    out: u32,
    ook: &'a mut [[u32; 4096]; 16],
    fsk: &'b mut [[u32; 4096]; 16],
}

impl<'a, 'b> Station for LentRows<'a, 'b> {
    ghost use Rattle.sixteen.specs.Sixteen.{machine as program};
    ghost use Rattle.sixteen.specs.Lent.{RowsSound, rows_of, buffers_of};
    ghost use Rattle.sixteen.specs.Orderly.{orderly as keeps_order};

    ghost machine = { program };

    ghost state = { rows_of };

    ghost is_sound = { RowsSound };

    ghost lent = { buffers_of };

    fn turn(
        &mut self,
        s: &[u8],
        from: usize,
        last: bool,
        text: &mut [u8],
        at: usize,
    ) -> Result<Turned, Stop> {
        let LentRows {
            lanes,
            out,
            ook,
            fsk,
        } = self;
        let command = addressed::command_at(s, from);
        if calls::waits(last, command) {
            return Err(Stop::Waiting);
        }
        let antenna = addressed::antenna_at(s, from);
        let j = row_of(antenna);
        if !has_room_for(&lanes[j], &ook[j], &fsk[j], text.len(), at) {
            return Err(Stop::NoRoom);
        }
        let others = *out - u32::from(among::is_out(&lanes[j]));
        let q = Asked {
            others,
            antenna,
            command,
        };
        let lane = &mut lanes[j];
        let t = turn(q, lane, s, from, &mut ook[j], &mut fsk[j], text, at);
        *out = others + u32::from(among::is_out(lane));
        Ok(t)
    }

    ghost orderly = { keeps_order };
}

// The turns of a block of bytes by sixteen lanes, whose buffers are lent, up to where they stop. `last`
// says that no byte will come after the block.
pub fn block(
    lanes: [Lane; 16],
    s: &[u8],
    last: bool,
    ook: &mut [[u32; 4096]; 16],
    fsk: &mut [[u32; 4096]; 16],
    text: &mut [u8],
) -> ([Lane; 16], Ran)
    requires { AllSound lanes }
    ensures streamed { Streamed machine (lanes, ook.old, fsk.old) s.now last result.1 (result.0, ook.new, fsk.new) text.new }
    ensures sound { AllSound result.0 }
    ensures sized { Sized (result.0, ook.new, fsk.new) }
{
    let out = among::count_out(&lanes);
    let mut station = LentRows {
        lanes,
        out,
        ook,
        fsk,
    };
    let ran = stream::block(&mut station, s, last, text);
    (station.lanes, ran)
}
