// The lines that the listing program prints (document 01, "Commands"), written into a lent buffer.
#![tactic(auto)]

ghost use Rattle.std.specs.Prelude.{◌≡◌, List, [], ◌∷◌, ◌++◌, ℕ, ◌+◌, ◌*◌, ◌<◌, Option, length};
ghost use Rattle.lines.specs.Line.{decimal, number, float, kind, carrier, widths, span_of, train_head, train_tail, train_line, record_line, idle_line, carrier_line, refused_line, call_text, after_tag, tagged_call, train_room, call_most, has_room, written_call, Spelled};
ghost use Rattle.lines.specs.Line.{glyph as Line·glyph};
ghost use Rattle.lines.specs.Text.{RoomFor, Puts, Begins};
ghost use Rattle.shared.specs.declared.Carrier.TheVariants as Carrier;

use shared::{Carrier, Next, Out};

// A lent buffer, and the place in it where the next line goes.
#[derive(Drop)]
pub struct Text<'a> {
    bytes: &'a mut [u8],
    pub at: usize,
}

// ---- numbers, spelled by hand: `write!` has no contract that says which bytes it writes.

// Puts n's digits at the end of out, and answers where they start.
fn spell(n: u64, out: &mut [u8]) -> usize
    requires { length out.old ≡ 20 }
    ensures { Spelled n result out.new }
{
    out[19] = 48 + (n % 10) as u8;
    let mut rest = n / 10;
    for i in (0..19).rev() {
        if rest == 0 {
            return i + 1;
        }
        out[i] = 48 + (rest % 10) as u8;
        rest /= 10;
    }
    0
}

fn glyph(d: u32) -> u8
    requires { d < 16 }
    ensures { result ≡ Line·glyph d }
{
    b"0123456789abcdef"[d as usize]
}

// The time from a train's index to its end: 0 where the end is the smaller one.
fn span(index: u64, end: u64) -> u64
    ensures { result ≡ span_of index end }
{
    end.saturating_sub(index)
}

impl<'a> Text<'a> {
    pub fn new(bytes: &'a mut [u8], at: usize) -> Text<'a>
        ensures { Begins bytes.entry at result }
    {
        Text { bytes, at }
    }

    fn put_bytes(&mut self, src: &[u8])
        requires { RoomFor (length src.now) self.old }
        ensures { Puts src.now (length src.now) self.old self.new }
    {
        let end = self.at + src.len();
        self.bytes[self.at..end].copy_from_slice(src);
        self.at = end;
    }

    pub fn put_byte(&mut self, b: u8)
        requires { RoomFor 1 self.old }
        ensures { Puts (b ∷ []) 1 self.old self.new }
    {
        self.bytes[self.at] = b;
        self.at += 1;
    }

    pub fn put_decimal(&mut self, n: u64)
        requires { RoomFor 20 self.old }
        ensures { Puts (decimal n) 20 self.old self.new }
    {
        let mut d = [0u8; 20];
        let i = spell(n, &mut d);
        self.put_bytes(&d[i..]);
    }

    // A space and a number.
    fn put_number(&mut self, n: u64)
        requires { RoomFor 21 self.old }
        ensures { Puts (number n) 21 self.old self.new }
    {
        self.put_byte(b' ');
        self.put_decimal(n);
    }

    // A space and a float's bits.
    fn put_float(&mut self, x: f32)
        requires { RoomFor 9 self.old }
        ensures { Puts (float x) 9 self.old self.new }
    {
        let n = ieee::bits_of_f32(x);
        self.put_byte(b' ');
        for k in (0..8u32).rev() {
            self.put_byte(glyph((n >> (4 * k)) % 16));
        }
    }

    // ---- a train line

    // All widths, each after a space.
    fn put_widths(&mut self, part: &[u32])
        requires { RoomFor (21 * length part.now) self.old }
        ensures { Puts (widths part.now) (21 * length part.now) self.old self.new }
    {
        for &w in part {
            self.put_number(u64::from(w));
        }
    }

    // The number is the record's own field, which a caller may set to any: 1 is FSK, and any other prints as OOK.
    fn put_kind(&mut self, fsk: u32)
        requires { RoomFor 3 self.old }
        ensures { Puts (kind fsk) 3 self.old self.new }
    {
        self.put_bytes(if fsk == 1 { b"fsk" } else { b"ook" });
    }

    fn put_carrier(&mut self, k: Carrier)
        requires { RoomFor 25 self.old }
        ensures { Puts (carrier k) 25 self.old self.new }
    {
        match k {
            Carrier::Angle(x) => {
                self.put_bytes(b" angle");
                self.put_float(x);
            }
            Carrier::Vector(re, im) => {
                self.put_bytes(b" vector");
                self.put_float(re);
                self.put_float(im);
            }
        }
    }

    // Kind, index, end, cut mark, span.
    fn put_head(&mut self, o: Out)
        requires { RoomFor 87 self.old }
        ensures { Puts (train_head o (span_of o.index o.end)) 87 self.old self.new }
    {
        self.put_kind(o.fsk);
        self.put_number(o.index);
        self.put_number(o.end);
        self.put_number(u64::from(o.cut));
        self.put_number(span(o.index, o.end));
    }

    // Level bits, carrier, pairs, widths.
    fn put_tail(&mut self, o: Out, part: &[u32])
        requires { RoomFor (73 + 21 * length part.now) self.old }
        ensures { Puts (train_tail o part.now) (73 + 21 * length part.now) self.old self.new }
    {
        self.put_float(o.level);
        self.put_carrier(o.carrier);
        self.put_number(u64::from(o.pairs));
        self.put_widths(part);
        self.put_byte(b'\n');
    }

    fn put_train(&mut self, o: Out, part: &[u32])
        requires { RoomFor (train_room (length part.now)) self.old }
        ensures { Puts (train_line o part.now) (train_room (length part.now)) self.old self.new }
    {
        self.put_head(o);
        self.put_tail(o, part);
    }

    // A record's line after a tag, if it decides a train.
    pub fn put_record(&mut self, tag: &[u8], o: Out, part: &[u32])
        requires { RoomFor (length tag.now + train_room (length part.now)) self.old }
        ensures { Puts (after_tag tag.now (record_line o part.now)) (length tag.now + train_room (length part.now)) self.old self.new }
    {
        if o.state == 1 {
            self.put_bytes(tag);
            self.put_train(o, part);
        }
    }

    // ---- the lines of a call

    pub fn put_idle(&mut self, index: u64)
        requires { RoomFor 48 self.old }
        ensures { Puts (idle_line index) 48 self.old self.new }
    {
        self.put_bytes(b"idle");
        self.put_number(index);
        self.put_byte(b'\n');
    }

    pub fn put_idle_at(&mut self, index: u64, e: f32)
        requires { RoomFor 48 self.old }
        ensures { Puts (carrier_line index e) 48 self.old self.new }
    {
        self.put_bytes(b"carrier");
        self.put_number(index);
        self.put_float(e);
        self.put_byte(b'\n');
    }

    pub fn put_refused(&mut self, number: u32)
        requires { RoomFor 48 self.old }
        ensures { Puts (refused_line number) 48 self.old self.new }
    {
        self.put_bytes(b"refused");
        self.put_number(u64::from(number));
        self.put_byte(b'\n');
    }

    // The phase line after a tag, or that of a refusal: of any number, so that a program prints its own too.
    fn put_phase(&mut self, tag: &[u8], r: Result<Next, u32>, index: u64)
        requires { RoomFor (length tag.now + 48) self.old }
        ensures { Puts (after_tag tag.now (call_text r [] index)) (length tag.now + 48) self.old self.new }
    {
        match r {
            Err(n) => {
                self.put_bytes(tag);
                self.put_refused(n);
            }
            Ok(Next::Stay) => {}
            Ok(Next::Idle) => {
                self.put_bytes(tag);
                self.put_idle(index);
            }
            Ok(Next::IdleAt(e)) => {
                self.put_bytes(tag);
                self.put_idle_at(index, e);
            }
        }
    }

    // The lines of a call, each after a tag, which is empty for a program with one lane: first `fsk`,
    // then `ook`, then the phase line. A refused call has its number alone. The records, their parts and the
    // index come one by one: both callers have them so, and a struct of them would be put together there only
    // to be taken apart here.
    pub fn put_call(
        &mut self,
        tag: &[u8],
        r: Result<Next, u32>,
        f: Out,
        fs: &[u32],
        o: Out,
        os: &[u32],
        index: u64,
    )
        requires { RoomFor (call_most (length tag.now) (length fs.now) (length os.now)) self.old }
        ensures { Puts (tagged_call tag.now r (record_line f fs.now) (record_line o os.now) index) (call_most (length tag.now) (length fs.now) (length os.now)) self.old self.new }
    {
        if r.is_ok() {
            self.put_record(tag, f, fs);
            self.put_record(tag, o, os);
        }
        self.put_phase(tag, r, index);
    }
}

// Whether a text of `len` bytes has room at a place for the lines of any call whose parts have at
// most n slots each.
#[tactic(auto, unfolding(crate::specs::Line::has_room))]
pub fn has_room(n: usize, len: usize, at: usize) -> bool
    ensures { result ≡ has_room n len at }
{
    n <= domain::MAX_SLOTS && at <= len && 368 + 42 * n <= len - at
}

// Writes the lines of a call at a place of the text, and answers the place after them: `None` where
// there was no room, and nothing was written.
pub fn call_lines(
    r: Result<Next, u32>,
    f: Out,
    fs: &[u32],
    o: Out,
    os: &[u32],
    index: u64,
    text: &mut [u8],
    at: usize,
) -> Option<usize>
    ensures { ◌≡◌ {A = Option ℕ × List ℕ} (result, text.new) (written_call r f fs.now o os.now index at text.old) }
{
    if !has_room(fs.len().max(os.len()), text.len(), at) {
        return None;
    }
    let mut t = Text::new(text, at);
    t.put_call(&[], r, f, fs, o, os, index);
    Some(t.at)
}
