// A program that answers a stream of bytes, read block after block: what one block and one feed leave,
// what a program has to be for that, the turns of a block, and the laws of what is printed.
#![tactic(auto)]

ghost use Rattle.std.specs.Prelude.{◌≡◌};
ghost use Rattle.stream.specs.Blocks.{is_full, is_over, Streamed};

// Why the turns of a block came to an end, or of all that was fed.
#[derive(Clone, Copy, Debug, PartialEq, Eq)]
pub enum Stop {
    // The next command waits for bytes.
    Waiting,
    // The text has no room for another call.
    NoRoom,
    // The stream has ended.
    Ended,
}

impl Stop {
    // Whether more of the bytes that are there may be answered.
    pub fn is_full(self) -> bool
        ensures { result ≡ is_full self }
    {
        matches!(self, Stop::NoRoom)
    }

    pub fn is_over(self) -> bool
        ensures { result ≡ is_over self }
    {
        matches!(self, Stop::Ended)
    }
}

// How a block was left.
#[derive(Clone, Copy, Debug, PartialEq, Eq)]
pub struct Ran {
    // The bytes that the block's commands took.
    pub used: usize,
    // The place after the lines.
    pub at: usize,
    pub stop: Stop,
}

// How a feed leaves a program.
#[derive(Clone, Copy, Debug, PartialEq, Eq)]
pub struct Fed {
    // The bytes at the front of the buffer that no command has taken yet.
    pub left: usize,
    // The place after the lines.
    pub at: usize,
    // `Ended` too where all of the stream is answered and no byte will come.
    pub stop: Stop,
}

// Where a turn leads.
#[derive(Clone, Copy, Debug, PartialEq, Eq)]
pub struct Turned {
    // The place after its commands. The one before them where the stream ends: there the machine's own `size`
    // is 0, and `Passed` reads a place that stays the same way.
    pub used: usize,
    // The place after their lines.
    pub at: usize,
}

// What answers the commands of a stream: one lane, or sixteen.
pub trait Station {
    ghost use Rattle.std.specs.Prelude.{ℕ, List, length, ◌<◌, ◌≤◌, MatchResult};
    ghost use Rattle.stream.specs.Machine.{Machine, Orderly};
    ghost use Rattle.stream.specs.Blocks.{Turn, Stays};

    // The program that it is.
    ghost machine: { Machine };

    // What the program has between two commands, as the station keeps it.
    ghost state: { Self → machine.State };

    // What a station keeps from turn to turn.
    ghost is_sound: { Self → Type 0 };

    // Which buffers it is lent, if any: a turn writes to them, and hands on the same.
    ghost lent: { Self → List ℕ };

    // A turn: the command at a place of the bytes, and those after it that print nothing up to one that
    // prints, whose lines stand at a place of the text. Or why there is no turn: the command waits for more
    // bytes, or the text has no room. `last` says that no byte will come after these. `text` and `at` are the
    // pair that `lines::Text` is; this crate stands on none, and knows of no lines.
    fn turn(
        &mut self,
        s: &[u8],
        from: usize,
        last: bool,
        text: &mut [u8],
        at: usize,
    ) -> Result<Turned, Stop>
        requires { is_sound self.old × (from < length s.now) × (at ≤ length text.old) }
        ensures turned { MatchResult result (λ z. Turn machine (state self.old) s.now last from at text.old z (state self.new) text.new) (λ stop. Stays machine (state self.old) s.now last from at text.old stop (state self.new) text.new) }
        ensures sound { is_sound self.new }
        ensures same { lent self.new ≡ lent self.old };

    ghost orderly: { Orderly machine };
}

// The turns of a block of bytes: each command's as soon as its own last byte is there, until the next
// waits for more, the text has no room, or the stream ends. `last` says that no byte will come after the
// block. A turn goes on by as many bytes as its commands take, so no index is counted.
pub fn block<S: Station>(station: &mut S, s: &[u8], last: bool, text: &mut [u8]) -> Ran
    requires { S.is_sound station.old }
    ensures streamed { Streamed S.machine (S.state station.old) s.now last result (S.state station.new) text.new }
    ensures sound { S.is_sound station.new }
    ensures same { S.lent station.new ≡ S.lent station.old }
{
    let mut used = 0;
    let mut at = 0;
    while used < s.len() {
        match station.turn(s, used, last, text, at) {
            Err(stop) => return Ran { used, at, stop },
            Ok(t) => {
                at = t.at;
                if t.used == used {
                    return Ran {
                        used,
                        at,
                        stop: Stop::Ended,
                    };
                }
                used = t.used;
            }
        }
    }
    Ran {
        used,
        at,
        stop: Stop::Waiting,
    }
}
