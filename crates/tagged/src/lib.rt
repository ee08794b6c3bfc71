// The lines of an antenna's call: those of the listing program, each after the antenna's number and
// a blank (document 02, R-4).
#![tactic(auto)]

ghost use Rattle.std.specs.Prelude.{◌≡◌, ◌+◌, ◌≤◌, length, take};
ghost use Rattle.lines.specs.Line.{record_line, train_room};
ghost use Rattle.lines.specs.Text.{RoomFor, Puts};
ghost use Rattle.tagged.specs.Tagged.{tag_of, tagged_text};

use lines::Text;
use shared::{Next, Out};

// The antenna's number and a blank, put at the start of `room`.
fn tag(i: usize, room: &mut [u8]) -> &[u8]
    requires { 21 ≤ length room.old }
    ensures { (length result.now ≤ 21) × (result.now ≡ tag_of i) }
{
    let mut t = Text::new(room, 0);
    t.put_decimal(i as u64);
    t.put_byte(b' ');
    let end = t.at;
    &room[..end]
}

// Writes the lines of a call: the records and then the phase line; a refused call has its number
// alone.
pub fn put_call(
    i: usize,
    r: Result<Next, u32>,
    f: Out,
    fs: &[u32],
    o: Out,
    os: &[u32],
    index: u64,
    text: &mut Text,
)
    requires { RoomFor (train_room (length fs.now) + train_room (length os.now) + 48 + 63) text.old }
    ensures { Puts (tagged_text i r (record_line f fs.now) (record_line o os.now) index) (train_room (length fs.now) + train_room (length os.now) + 48 + 63) text.old text.new }
{
    text.put_call(tag(i, &mut [0u8; 21]), r, f, fs, o, os, index);
}
