// UTF-8 text: whether a string of bytes is one (RFC 3629), and the character at a place.
#![tactic(auto)]

ghost use Rattle.std.specs.Prelude.{◌≡◌, ℕ, ◌+◌, ◌*◌, ◌%◌, ◌≤◌, ◌<◌, true, length, get_or, drop};
ghost use Rattle.utf8.specs.Utf8.{tail, two, three, four, char, front, Decoded};
ghost use Rattle.utf8.specs.Utf8 as utf;
ghost use Rattle.utf8.specs.Inner.{leading_ones, Behind};

// A character: how many bytes it takes, and its number.
#[derive(Clone, Copy)]
pub struct Char {
    pub size: usize,
    pub code: u32,
}

// By the table of RFC 3629, section 3, from the bytes of each row.
impl Char {
    fn of_one(a: u8) -> Self
        ensures { result ≡ char 1 a }
    {
        let code = codec::wide(a) as u32;
        Char { size: 1, code }
    }

    fn of_two(a: u8, b: u8) -> Self
        ensures { result ≡ char 2 (a % 32 * 64 + b % 64) }
    {
        let a = codec::wide(a) as u32;
        let b = codec::wide(b) as u32;
        Char {
            size: 2,
            code: a % 32 * 64 + b % 64,
        }
    }

    fn of_three(a: u8, b: u8, c: u8) -> Self
        ensures { result ≡ char 3 ((a % 16 * 64 + b % 64) * 64 + c % 64) }
    {
        let a = codec::wide(a) as u32;
        let b = codec::wide(b) as u32;
        let c = codec::wide(c) as u32;
        Char {
            size: 3,
            code: (a % 16 * 64 + b % 64) * 64 + c % 64,
        }
    }

    fn of_four(a: u8, b: u8, c: u8, d: u8) -> Self
        ensures { result ≡ char 4 (((a % 8 * 64 + b % 64) * 64 + c % 64) * 64 + d % 64) }
    {
        let a = codec::wide(a) as u32;
        let b = codec::wide(b) as u32;
        let c = codec::wide(c) as u32;
        let d = codec::wide(d) as u32;
        Char {
            size: 4,
            code: ((a % 8 * 64 + b % 64) * 64 + c % 64) * 64 + d % 64,
        }
    }
}

// The number of leading ones of a byte: 0 of a character of one byte, 2 to 4 of one of so many.
fn leading_ones(b: u8) -> u32
    ensures { result ≡ leading_ones b }
{
    u8::leading_zeros(!b)
}

// The byte k places behind `at`, 0 past the end.
fn byte(s: &[u8], at: usize, k: usize) -> u8
    requires { at ≤ length s.now }
    ensures { result ≡ get_or s.now (at + k) 0 }
{
    s[at..].get(k).copied().unwrap_or(0)
}

fn is_tail(b: u8) -> bool
    ensures { result ≡ tail b }
{
    (128 <= b) & (b <= 191)
}

fn is_two(a: u8, b: u8) -> bool
    ensures { result ≡ two a b }
{
    ((194 <= a) & (a <= 223)) & is_tail(b)
}

// The row of the table is told by the four bits of the first byte and the highest of the second byte's six: 0 would be an overlong form, 27 a surrogate.
fn is_three(a: u8, b: u8, c: u8) -> bool
    ensures { result ≡ three a b c }
{
    let row = a % 16 * 2 + b / 32 % 2;
    ((224 <= a) & (a <= 239)) & is_tail(b) & is_tail(c) & (row != 0) & (row != 27)
}

fn is_four(a: u8, b: u8, c: u8, d: u8) -> bool
    ensures { result ≡ four a b c d }
{
    let low = if a == 240 { 144 } else { 128 };
    let high = if a == 244 { 143 } else { 191 };
    ((240 <= a) & (a <= 244)) & ((low <= b) & (b <= high)) & is_tail(c) & is_tail(d)
}

// The character at a place: the leading ones of its first byte tell the row. Row by row: a `match` would jump by a table, which mixed text mispredicts.
pub fn decode(s: &[u8], at: usize) -> Option<Char>
    requires { at < length s.now }
    ensures { Decoded s.now at result }
{
    let ones = leading_ones(s[at]);
    let a = s[at];
    if ones == 0 {
        return Some(Char::of_one(a));
    }
    let b = byte(s, at, 1);
    if ones == 2 {
        return is_two(a, b).then_some(Char::of_two(a, b));
    }
    let c = byte(s, at, 2);
    if ones == 3 {
        return is_three(a, b, c).then_some(Char::of_three(a, b, c));
    }
    let d = byte(s, at, 3);
    if ones == 4 {
        return is_four(a, b, c, d).then_some(Char::of_four(a, b, c, d));
    }
    None
}

// The character at a place of a valid text, where one stands: no row has to be judged.
pub fn decode_valid(s: &[u8], at: usize) -> Char
    requires { (at < length s.now) × (0 < (front (drop at s.now)).size) }
    ensures { Decoded s.now at (Some result) }
{
    let a = s[at];
    let ones = leading_ones(a);
    if ones == 0 {
        return Char::of_one(a);
    }
    let b = s[at + 1];
    if ones == 2 {
        return Char::of_two(a, b);
    }
    let c = s[at + 2];
    if ones == 3 {
        return Char::of_three(a, b, c);
    }
    Char::of_four(a, b, c, s[at + 3])
}

// Whether each byte is below 128, one by one, with no branch for each.
fn plain_bytes(s: &[u8]) -> bool
    ensures { result ≡ utf.plain s.now }
{
    s.iter().fold(true, |below, b| below & (*b < 128))
}

// Whether each byte is below 128: the bits of all words gathered, the last eight bytes first. A word is read the turn before it is gathered: joined at
// once with those before it, it would be read byte by byte.
pub fn plain(s: &[u8]) -> bool
    ensures { result ≡ utf.plain s.now }
{
    let n = s.len();
    if n < 8 {
        return plain_bytes(s);
    }
    let mut bits: u64 = 0;
    let mut word = codec::get_u64_le(s, n - 8);
    let (eights, _) = s.as_chunks::<8>();
    for eight in eights {
        bits |= word;
        word = codec::get_u64_le(eight, 0);
    }
    (bits | word) & 0x8080808080808080 == 0
}

// Behind the characters of `size` bytes that stand from a place on: `stands` tells whether one does at a place.
fn past<F: Fn(usize) -> bool>(s: &[u8], at: usize, size: usize, stands: F) -> usize
    requires from { at ≤ length s.now }
    requires some { 0 < size }
    requires asked { (i : ℕ) → i + size ≤ length s.now → F.pre stands i }
    requires told { (i : ℕ) → i + size ≤ length s.now → F.post stands i true → (front (drop i s.now)).size ≡ size }
    ensures { Behind s.now at result }
{
    let mut i = at;
    while size <= s.len() - i && stands(i) {
        i += size;
    }
    i
}

// Behind those of so many bytes: text is mostly of one script, and what the first byte of each tells is asked of the first alone.
fn past_like(s: &[u8], at: usize, size: usize) -> usize
    requires { at ≤ length s.now }
    ensures { Behind s.now at result }
{
    match size {
        1 => past(s, at, 1, |i| s[i] < 128),
        2 => past(s, at, 2, |i| is_two(s[i], s[i + 1])),
        3 => past(s, at, 3, |i| is_three(s[i], s[i + 1], s[i + 2])),
        4 => past(s, at, 4, |i| is_four(s[i], s[i + 1], s[i + 2], s[i + 3])),
        _ => at,
    }
}

// Whether a string of bytes that are not all below 128 is UTF-8, character by character.
fn valid_chars(s: &[u8]) -> bool
    ensures { result ≡ utf.valid s.now }
{
    let mut i = 0;
    while i < s.len() {
        let Some(found) = decode(s, i) else {
            return false;
        };
        i = past_like(s, i + found.size, found.size);
    }
    true
}

// Whether a string of bytes is UTF-8.
pub fn valid(s: &[u8]) -> bool
    ensures { result ≡ utf.valid s.now }
{
    plain(s) || valid_chars(s)
}
