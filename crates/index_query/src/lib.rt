// The query of an index file by key and time: the walk along a slot's chain.
#![tactic(auto)]

ghost use Rattle.std.specs.Prelude.{◌≡◌, ◌+◌, ◌<◌, ◌≤◌, length};
ghost use Rattle.index_query.specs.Walk.{criteria_of, search};
ghost use Rattle.index_query.specs.Query.{wanted_of, text_fits, query_fits, reported, queried};
ghost use Rattle.index_query.specs.Inner.{verdict_of, hash_if};

use index_file::{Header, Index, IndexSizes, Item};
use units::Answer;

// What a query looks for, and the header's first time, on which item times rest.
#[derive(Clone, Copy)]
pub struct Criteria {
    pub hash: u32,
    pub begin: u64,
    pub end: u64,
    pub base: u64,
}

// What reading an item comes to.
#[derive(Clone, Copy)]
enum Verdict {
    Damaged,
    Match,
    Early,
    Pass,
}

// How a query ends: the positions written and the items read.
#[derive(Clone, Copy)]
pub struct Queried {
    pub answer: Answer,
    pub found: u64,
    pub read: u64,
}

impl Queried {
    fn new(answer: Answer, found: usize, read: u64) -> Queried
        ensures { result ≡ record { answer = answer; found = found; read = read } }
    {
        Queried {
            answer,
            found: found as u64,
            read,
        }
    }
}

// What an item that was read comes to.
// Its own number is there for the test of its seconds, which it cannot change: the larger of both takes all four bytes of the seconds, in one load.
fn judge(criteria: Criteria, item: Item, number: u32) -> Verdict
    requires { (criteria.base ≤ 281474976710655) × (number < 2147483648) }
    ensures { result ≡ verdict_of criteria item }
{
    if (Item::MAX_SECONDS < item.seconds.max(number)) | (Header::MAX_POSITION < item.position.0) {
        return Verdict::Damaged;
    }
    let time = criteria.base + 1000 * u64::from(item.seconds);
    if (item.hash == criteria.hash) & ((criteria.begin <= time) & (time <= criteria.end)) {
        return Verdict::Match;
    }
    if time < criteria.begin {
        Verdict::Early
    } else {
        Verdict::Pass
    }
}

// The criteria of a query over an index.
fn criteria_for(index: &Index, hash: u32, begin: u64, end: u64) -> Criteria
    ensures { result ≡ criteria_of index.now.bytes.now hash begin end }
{
    Criteria {
        hash,
        begin,
        end,
        base: index.first_time(),
    }
}

// The walk from the slot of a hash, newest item first; the positions of matches go to the output's front.
fn walk_chain(index: &Index, criteria: Criteria, wanted: usize, out: &mut [u64]) -> Queried
    requires { (criteria.base ≤ 281474976710655) × (wanted ≤ length out.old) }
    ensures { record { made = result; out = out.new } ≡ reported (search index.now.slots.count index.now.bytes.now criteria wanted) out.old }
{
    let mut before = index.used_count();
    let mut number = index.slot(criteria.hash);
    let mut found: usize = 0;
    let mut read: u64 = 0;
    loop {
        if found == wanted {
            break Queried::new(Answer::Done, found, read);
        }
        if number == 0 {
            break Queried::new(Answer::Done, found, read);
        }
        if before <= number {
            break Queried::new(Answer::ChainBroken, found, read);
        }
        let item = Item::read(index, number);
        read += 1;
        match judge(criteria, item, number) {
            Verdict::Damaged => break Queried::new(Answer::ChainBroken, found, read),
            Verdict::Match => {
                out[found] = item.position.0;
                found += 1;
            }
            Verdict::Early => break Queried::new(Answer::Done, found, read),
            Verdict::Pass => {}
        }
        before = number;
        number = item.previous;
    }
}

// The number wanted: 0 means 32.
fn wanted_of(wanted: u64) -> u64
    ensures { result ≡ wanted_of wanted }
{
    if wanted == 0 { 32 } else { wanted }
}

fn text_fits(most: usize, len: usize) -> bool
    ensures { result ≡ text_fits most len }
{
    (1..=most).contains(&len)
}

// Whether topic and key have a byte and are not too long, the times are in limits and ordered, and the output has the places.
fn query_fits(
    topic: usize,
    key: usize,
    first_time: u64,
    last_time: u64,
    wanted: u64,
    places: usize,
) -> bool
    ensures { result ≡ query_fits topic key first_time last_time wanted places }
{
    let texts = text_fits(127, topic) & text_fits(32767, key);
    let times = (first_time <= last_time) & (last_time <= Header::MAX_TIME);
    texts & times & (wanted <= places as u64)
}

// The index hash of a query's key, if the query is well-formed: topic and key are UTF-8, and the rest is as it should be.
// They are lent anew where they are judged: handed on as they came, they would be stored in every call, plain or not.
fn hash_if(fits: bool, topic: &[u8], key: &[u8]) -> Option<u32>
    ensures { result ≡ hash_if fits topic.now key.now }
{
    if !fits {
        return None;
    }
    let plain = utf8::plain(topic) & utf8::plain(key);
    if !plain && !(utf8::valid(&topic[..]) & utf8::valid(&key[..])) {
        return None;
    }
    Some(java_hash::index_hash(topic, key, plain))
}

// The newest items with the key's hash and a recorded time in the range: their positions go to the output's front.
// The hash is the longest wait, and the other checks go on meanwhile: it is made first, though they are answered before.
pub fn query(
    index: &[u8],
    sizes: IndexSizes,
    topic: &[u8],
    key: &[u8],
    first_time: u64,
    last_time: u64,
    wanted: u64,
    out: &mut [u64],
) -> Queried
    ensures { record { made = result; out = out.new } ≡ queried sizes.slot_count sizes.item_count index.now topic.now key.now first_time last_time wanted out.old }
{
    let most = wanted_of(wanted);
    let fits = query_fits(
        topic.len(),
        key.len(),
        first_time,
        last_time,
        most,
        out.len(),
    );
    let hashed = hash_if(fits, topic, key);
    let index = match Index::open(index, sizes) {
        Ok(index) => index,
        Err(refusal) => return Queried::new(refusal, 0, 0),
    };
    let Some(hash) = hashed else {
        return Queried::new(Answer::Malformed, 0, 0);
    };
    let criteria = criteria_for(&index, hash, first_time, last_time);
    walk_chain(&index, criteria, most as usize, out)
}
