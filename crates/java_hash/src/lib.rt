// The hash of Java's strings, the tag code, the index hash and its slot. A hash is kept modulo 2^32, as the bits of Java's int.
#![tactic(auto)]

mod mul31;

ghost use Rattle.std.specs.Prelude.{◌≡◌, ℕ, ◌+◌, ◌*◌, ◌%◌, ◌^◌, ◌<◌, true, [], ◌∷◌, length, drop};
ghost use Rattle.utf8.specs.Utf8.{units, units_of, valid, Decoded, Known};
ghost use Rattle.java_hash.specs.Hash.{hash_from, signed, carried, absolute, tag_code, topic_hash, key_hash, index_hash, slot_of};

use utf8::Char;

// One unit more.
fn step(h: u32, unit: u32) -> u32
    ensures { result ≡ hash_from h (unit ∷ []) }
{
    mul31::mul31(h).wrapping_add(unit)
}

// What h becomes by N units more, whose own hash is `more`: times 31 for each of them, plus theirs.
fn onward<const N: u32>(h: u32, more: u32) -> u32
    ensures { result ≡ (31 ^ N * h + more) % 4294967296 }
{
    let mut times = h;
    for _ in 0..N {
        times = mul31::mul31(times);
    }
    times.wrapping_add(more)
}

// The hash of two, four and eight bytes, by those of their halves.
fn pair(s: &[u8]) -> u32
    requires { length s.now ≡ 2 }
    ensures { result ≡ hash_from 0 s.now }
{
    onward::<1>(u32::from(s[0]), u32::from(s[1]))
}

fn quad(s: &[u8]) -> u32
    requires { length s.now ≡ 4 }
    ensures { result ≡ hash_from 0 s.now }
{
    let (front, back) = s.split_at(2);
    onward::<2>(pair(front), pair(back))
}

fn octet(s: &[u8]) -> u32
    requires { length s.now ≡ 8 }
    ensures { result ≡ hash_from 0 s.now }
{
    let (front, back) = s.split_at(4);
    onward::<4>(quad(front), quad(back))
}

// Eight bytes more.
fn step8(h: u32, eight: &[u8; 8]) -> u32
    ensures { result ≡ hash_from h eight.now }
{
    onward::<8>(h, octet(eight))
}

// The units of a character more.
fn step_code(h: u32, code: u32) -> u32
    ensures { result ≡ hash_from h (units_of code) }
{
    if code < 65536 {
        return step(h, code);
    }
    let above = code - 65536;
    step(step(h, 0xd800 + above / 1024), 0xdc00 + above % 1024)
}

// The hash h, continued over bytes as units: eight a turn, then the rest.
fn hash_bytes(start: u32, s: &[u8]) -> u32
    ensures { result ≡ hash_from start s.now }
{
    let (eights, rest) = s.as_chunks::<8>();
    let h = eights.iter().fold(start, step8);
    rest.iter().fold(h, |h, byte| step(h, u32::from(*byte)))
}

// The hash h, continued over the units of the characters that `decode` finds one behind the other, up to the first place where it finds none.
fn hash_decoded<F: Fn(usize) -> Option<Char>>(start: u32, s: &[u8], decode: F) -> u32
    requires asked { (i : ℕ) → i < length s.now → valid (drop i s.now) ≡ valid s.now → F.pre decode i }
    requires told { (i : ℕ) (r : _) → i < length s.now → F.post decode i r → Decoded s.now i r }
    ensures { result ≡ hash_from start (units s.now) }
{
    let mut h = start;
    let mut i = 0;
    while i < s.len() {
        let Some(c) = decode(i) else {
            return h;
        };
        h = step_code(h, c.code);
        i += c.size;
    }
    h
}

// The hash h, continued over the units of a text.
fn hash_chars(start: u32, s: &[u8]) -> u32
    requires { valid s.now ≡ true }
    ensures { result ≡ hash_from start (units s.now) }
{
    hash_decoded(start, s, |i| Some(utf8::decode_valid(s, i)))
}

// The same of any bytes.
fn hash_any(start: u32, s: &[u8]) -> u32
    ensures { result ≡ hash_from start (units s.now) }
{
    hash_decoded(start, s, |i| utf8::decode(s, i))
}

// The signed number, carried into 64 bits.
fn carry(h: u32) -> u64
    ensures { result ≡ carried (signed h) }
{
    i64::from(h.cast_signed()).cast_unsigned()
}

// The signed number's absolute value, and 0 for the least number.
fn magnitude(h: u32) -> u32
    ensures { result ≡ absolute (signed h) }
{
    h.cast_signed().checked_abs().unwrap_or(0).cast_unsigned()
}

// The hash h, continued over the units of a text that was judged: where each byte is below 128 the bytes are the units. In line always, so that the
// compiler takes the hash of bytes into the callers' loops and leaves that of characters outside.
#[inline(always)]
fn hash_text(start: u32, s: &[u8], plain: bool) -> u32
    requires { Known plain s.now }
    ensures { result ≡ hash_from start (units s.now) }
{
    if plain {
        hash_bytes(start, s)
    } else {
        hash_chars(start, s)
    }
}

// The tag code, as 64 bits.
pub fn tag_code(tags: &[u8], plain: bool) -> u64
    requires { Known plain tags.now }
    ensures { result ≡ tag_code tags.now }
{
    carry(hash_text(0, tags, plain))
}

// The tag code of any bytes.
pub fn any_tag_code(tags: &[u8]) -> u64
    ensures { result ≡ tag_code tags.now }
{
    carry(if utf8::plain(tags) {
        hash_bytes(0, tags)
    } else {
        hash_any(0, tags)
    })
}

// The hash of topic and `#`, from which the hash of each key goes on.
pub fn topic_hash(topic: &[u8], plain: bool) -> u32
    requires { Known plain topic.now }
    ensures { result ≡ topic_hash topic.now }
{
    step(hash_text(0, topic, plain), u32::from(b'#'))
}

// The index hash of a key, from its topic's hash.
pub fn key_hash(prefix: u32, key: &[u8], plain: bool) -> u32
    requires { Known plain key.now }
    ensures { result ≡ key_hash prefix key.now }
{
    magnitude(hash_text(prefix, key, plain))
}

pub fn index_hash(topic: &[u8], key: &[u8], plain: bool) -> u32
    requires { Known plain topic.now × Known plain key.now }
    ensures { result ≡ index_hash topic.now key.now }
{
    key_hash(topic_hash(topic, plain), key, plain)
}

// The slot of an index hash, of so many slots.
pub fn slot(hash: u32, slots: u64) -> u64
    requires { 0 < slots }
    ensures { result ≡ slot_of slots hash }
{
    u64::from(hash) % slots
}
