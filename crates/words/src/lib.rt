// Little-endian numbers in bytes (document 01, "Commands"): one at a place, and lists of u32 words.
#![tactic(auto)]

ghost use Rattle.std.specs.Prelude.{◌≡◌, ◌+◌, ◌*◌, ◌<◌, ◌≤◌, length, take, drop};
ghost use Rattle.words.specs.Words.{u32_at, u64_at, f32_at, decode, encode, put_at, read_of, written_of};

// ---- a number at a place

// The N bytes from i on. Whoever reads a number has measured its bytes, so that none is tested again.
fn bytes_at<const N: usize>(o: &[u8], i: usize) -> [u8; N]
    requires { i + N ≤ length o.now }
    ensures { result ≡ take N (drop i o.now) }
{
    *o[i..].first_chunk().unwrap()
}

// The number of the four bytes from i on.
#[tactic(auto, unfolding(crate::specs::Words::u32_at))]
pub fn u32_at(o: &[u8], i: usize) -> u32
    requires { i + 4 ≤ length o.now }
    ensures { result ≡ u32_at o.now i }
{
    u32::from_le_bytes(bytes_at(o, i))
}

// The number of the eight bytes from i on.
#[tactic(auto, unfolding(crate::specs::Words::u64_at, crate::specs::Words::u32_at))]
pub fn u64_at(o: &[u8], i: usize) -> u64
    requires { i + 8 ≤ length o.now }
    ensures { result ≡ u64_at o.now i }
{
    u64::from_le_bytes(bytes_at(o, i))
}

// The float of the four bytes from i on.
pub fn f32_at(o: &[u8], i: usize) -> f32
    requires { i + 4 ≤ length o.now }
    ensures { result ≡ f32_at o.now i }
{
    ieee::f32_of_bits(u32_at(o, i))
}

// ---- lists of words

// Both loops count the words. A `zip` of the words with the chunks of four bytes would say the same with no index, but one side is written
// through (`iter_mut` here, `chunks_exact_mut` in `write_all`), and of what is written through a `zip` a proof is told nothing.

// The words of the bytes, into a buffer of exactly that many.
fn read_all(bytes: &[u8], buf: &mut [u32])
    requires { length bytes.now ≡ 4 * length buf.old }
    ensures { buf.new ≡ decode bytes.now }
{
    for (i, w) in buf.iter_mut().enumerate() {
        *w = u32_at(bytes, 4 * i);
    }
}

// The words of the bytes, into a buffer of that many; nothing where it has another length.
#[tactic(auto, unfolding(crate::specs::Words::read_of))]
pub fn read_words(bytes: &[u8], buf: &mut [u32])
    ensures { buf.new ≡ read_of bytes.now buf.old }
{
    if bytes.len() == 4 * buf.len() {
        read_all(bytes, buf);
    }
}

// The four bytes of v at p, the least significant first.
fn put_word(bytes: &mut [u8], p: usize, v: u32)
    requires { p + 3 < length bytes.old }
    ensures { bytes.new ≡ put_at bytes.old p v }
{
    bytes[p..p + 4].copy_from_slice(&v.to_le_bytes());
}

// The bytes of the words, into a buffer of exactly that many.
fn write_all(bytes: &mut [u8], buf: &[u32])
    requires { length bytes.old ≡ 4 * length buf.now }
    ensures { bytes.new ≡ encode buf.now }
{
    for (i, &w) in buf.iter().enumerate() {
        put_word(bytes, 4 * i, w);
    }
}

// The bytes of the words, into a buffer of that many; nothing where it has another length.
#[tactic(auto, unfolding(crate::specs::Words::written_of))]
pub fn write_words(bytes: &mut [u8], buf: &[u32])
    ensures { bytes.new ≡ written_of bytes.old buf.now }
{
    if bytes.len() == 4 * buf.len() {
        write_all(bytes, buf);
    }
}
