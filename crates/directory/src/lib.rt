// The directory of queues: judged once, then asked for the row of a topic and id.
#![tactic(auto)]

ghost use Rattle.std.specs.Prelude.{◌≡◌, ◌+◌, ◌<◌, length};
ghost use Rattle.std.specs.Iterator.{YieldsFirstBy, item_count};
ghost use Rattle.directory.specs.Directory.{row_length, row_queue, row_ok, names, row_from, queues, row_count, row_of};
ghost use Rattle.directory.specs.Inner.{queue_of, rows_of, InRows, Begins, First, bucket_of};

// The number that stands for no row, behind those of all rows.
pub const NO_ROW: u64 = 16;

const ROWS: usize = 16;

const TOPIC: usize = 8;

// What a row tells of its queue.
#[derive(Clone, Copy)]
struct Row<'a> {
    topic: &'a [u8],
    id: u32,
}

impl<'a> Row<'a> {
    // The row that the bytes begin with.
    #[tactic(auto, unfolding(crate::specs::Directory::row_length, crate::specs::Directory::row_id, crate::specs::Directory::row_queue, codec::specs::Bytes::part))]
    fn new(bytes: &'a [u8]) -> Self
        requires { Begins bytes.now }
        ensures queue { queue_of result ≡ row_queue bytes.now }
        ensures size { length result.topic.now + 8 ≡ row_length bytes.now }
    {
        let size = codec::get_le(bytes, 0, 2) as usize;
        Row {
            topic: &bytes[TOPIC..size],
            id: codec::get_u32_le(bytes, 4),
        }
    }

    // How many bytes it has.
    fn size(self) -> usize
        ensures { result ≡ length self.entry.topic.now + 8 }
    {
        self.topic.len() + TOPIC
    }

    // One of 16 places, by the size of its topic and its id.
    fn bucket(self) -> usize
        ensures { (result ≡ bucket_of (queue_of self.entry)) × (result < 16) }
    {
        (4 * (self.topic.len() % 4) + (self.id as usize)) % 16
    }

    // Whether it has this topic and id.
    fn is_queue(self, topic: &[u8], id: u32) -> bool
        ensures { result ≡ names topic.now id (queue_of self.entry) }
    {
        self.id == id && self.topic.len() == topic.len() && codec::same_at(self.topic, 0, topic)
    }
}

// Whether the bytes begin with a row.
fn row_ok(bytes: &[u8]) -> bool
    ensures { result ≡ row_ok bytes.now }
{
    if bytes.len() < TOPIC {
        return false;
    }
    let size = codec::get_le(bytes, 0, 2) as usize;
    let kind = codec::get_u16_le(bytes, 2);
    let id = codec::get_u32_le(bytes, 4);
    let fits = (9 <= size) & (size <= 135) & (size <= bytes.len());
    fits & ((kind == 1) & (id < 2147483648))
}

// The length of the first of these rows.
fn first_size(rows: &[u8]) -> usize
    requires { InRows rows.now × (0 < length rows.now) }
    ensures { First rows.now result }
{
    codec::get_le(rows, 0, 2) as usize
}

// The rows of a directory in order, one behind the other.
#[derive(Drop)]
struct Rows<'a> {
    rest: &'a [u8],
    ghost made: { InRows rest.now },
}

impl<'a> Iterator for Rows<'a> {
    type Item = Row<'a>;

    ghost next_gives = { YieldsFirstBy queue_of (λ s. rows_of s.rest.now) };

    ghost remaining = { item_count (λ s. rows_of s.rest.now) };

    fn next(&mut self) -> Option<Row<'a>> {
        let rows = self.rest;
        if rows.is_empty() {
            return None;
        }
        let size = first_size(rows);
        self.rest = &rows[size..];
        Some(Row::new(rows))
    }
}

// The first row with this topic and id.
fn row_from(dir: &[u8], topic: &[u8], id: u32) -> Option<usize>
    requires { InRows dir.now }
    ensures { result ≡ row_from 0 topic.now id (rows_of dir.now) }
{
    Rows { rest: dir }.position(|row| row.is_queue(topic, id))
}

// The number of rows, 1 to 16, of a directory that is in order.
pub fn validate(dir: &[u8]) -> Option<usize>
    ensures { result ≡ row_count dir.now }
{
    let mut met = [false; 16];
    let mut at: usize = 0;
    let mut rows: usize = 0;
    while at < dir.len() {
        if rows == ROWS {
            return None;
        }
        let rest = &dir[at..];
        if !row_ok(rest) {
            return None;
        }
        let row = Row::new(rest);
        let k = row.bucket();
        // A row of the same topic and id would have been met there.
        if met[k] && row_from(&dir[..at], row.topic, row.id).is_some() {
            return None;
        }
        met[k] = true;
        at += row.size();
        rows += 1;
    }
    (rows != 0).then_some(rows)
}

// The row of a topic and id, in a directory that is in order.
pub fn lookup(dir: &[u8], topic: &[u8], id: u32) -> Option<usize>
    requires { 0 < length (queues dir.now) }
    ensures { result ≡ row_of topic.now id dir.now }
{
    row_from(dir, topic, id)
}
