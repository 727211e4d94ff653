// The index file: its header, slots and items; a record's items checked and put.
#![tactic(auto)]

ghost use Rattle.std.specs.Prelude.{◌≡◌, ◌+◌, ◌*◌, ◌<◌, ◌≤◌, true, false, length, IfOk};
ghost use Rattle.std.specs.Result.{result_err};
ghost use Rattle.codec.specs.Bytes.{overwrite};
ghost use Rattle.java_hash.specs.Hash.{slot_of};
ghost use Rattle.units.specs.Checked.{checked};
ghost use Rattle.index_file.specs.Index.{used_count, first_time, slot_value, sizes_ok, header_sound, index_refusal, item_at, item_of, item_bytes, seconds_of, filled_after};
ghost use Rattle.index_file.specs.Items.{is_ahead, is_full, any_bad_slot, items_answer, put_all};
ghost use Rattle.index_file.specs.Room.{Room, IndexSized, SlotPlace};
ghost use Rattle.index_file.specs.Inner.{seconds_after, with_header, Entered};

use units::{Answer, LogPosition};

// The number of slots and of items that an index has room for: K and N.
#[derive(Clone, Copy)]
pub struct IndexSizes {
    pub slot_count: u64,
    pub item_count: u64,
}

// The header: where its numbers stand, and their limits.
pub struct Header;

impl Header {
    const FIRST_TIME: usize = 0;

    const LAST_TIME: usize = 8;

    const FIRST_POSITION: usize = 16;

    const LAST_POSITION: usize = 24;

    const FILLED_SLOTS: usize = 32;

    const USED_COUNT: usize = 36;

    const LEN: usize = 40;

    pub const MAX_TIME: u64 = 281474976710655;

    pub const MAX_POSITION: u64 = 1099511627776;
}

// A number of slots within its limits.
#[derive(Clone, Copy)]
pub struct Slots {
    pub count: u64,
    ghost some: { 0 < count },
    ghost most: { count ≤ 5000000 },
}

impl Slots {
    // The place of a hash's slot.
    pub fn slot_place(self, hash: u32) -> usize
        ensures { SlotPlace self.count (slot_of self.count hash) result }
    {
        Header::LEN + 4 * (java_hash::slot(hash, self.count) as usize)
    }

    // The place of item u, behind all slots.
    pub fn item_place(self, u: u32) -> usize
        ensures { result ≡ item_at self.count u }
    {
        Header::LEN + 4 * (self.count as usize) + 20 * (u as usize)
    }
}

// An item as stored: each number as its bytes read without a sign.
#[derive(Clone, Copy)]
pub struct Item {
    pub hash: u32,
    pub position: LogPosition,
    pub seconds: u32,
    pub previous: u32,
}

impl Item {
    const POSITION: usize = 4;

    const SECONDS: usize = 12;

    const PREVIOUS: usize = 16;

    pub const MAX_SECONDS: u32 = 2147483647;

    // Item u as it stands in the index.
    pub fn read(index: &Index, u: u32) -> Item
        requires { u < used_count index.now.bytes.now }
        ensures { result ≡ item_of index.now.slots.count index.now.bytes.now u }
    {
        let bytes = index.bytes;
        let at = index.slots.item_place(u);
        Item {
            hash: codec::get_u32(bytes, at),
            position: LogPosition(codec::get_u64(bytes, at + Item::POSITION)),
            seconds: codec::get_u32(bytes, at + Item::SECONDS),
            previous: codec::get_u32(bytes, at + Item::PREVIOUS),
        }
    }

    // The item, written as item u.
    fn write(self, index: &mut [u8], slots: Slots, u: u32)
        requires { item_at slots.count u + 20 ≤ length index.old }
        ensures { index.new ≡ overwrite index.old (item_at slots.count u) (item_bytes self) }
    {
        let at = slots.item_place(u);
        codec::put_u32(index, at, self.hash);
        codec::put_u64(index, at + Item::POSITION, self.position.0);
        codec::put_u32(index, at + Item::SECONDS, self.seconds);
        codec::put_u32(index, at + Item::PREVIOUS, self.previous);
    }
}

// An index to be read: as long as its sizes ask, with a sound header.
#[derive(Clone, Copy)]
pub struct Index<'a> {
    pub bytes: &'a [u8],
    pub slots: Slots,
    ghost items_within: { item_at slots.count (used_count bytes.now) ≤ length bytes.now },
    ghost few_items: { used_count bytes.now ≤ 20000000 },
    ghost time_within: { first_time bytes.now ≤ 281474976710655 },
}

impl Index<'_> {
    // The index, if its sizes are in order and then its header.
    pub fn open(bytes: &[u8], sizes: IndexSizes) -> Result<Index<'_>, Answer>
        ensures refused { result_err result ≡ index_refusal sizes.slot_count sizes.item_count bytes.now }
        ensures opened { IfOk result (λ index. (index.bytes.now ≡ bytes.now) × (index.slots.count ≡ sizes.slot_count)) }
    {
        if !sizes_ok(sizes, bytes.len()) {
            return Err(Answer::BadSizes);
        }
        if !header_sound(bytes, sizes.item_count) {
            return Err(Answer::BadHeader);
        }
        let slots = Slots {
            count: sizes.slot_count,
        };
        Ok(Index { bytes, slots })
    }

    pub fn used_count(&self) -> u32
        ensures { result ≡ used_count self.now.bytes.now }
    {
        used_count(self.bytes)
    }

    pub fn first_time(&self) -> u64
        ensures { result ≡ first_time self.now.bytes.now }
    {
        codec::get_u64(self.bytes, Header::FIRST_TIME)
    }

    // The value of a hash's slot: the newest item of its chain, or 0.
    pub fn slot(&self, hash: u32) -> u32
        ensures { result ≡ slot_value self.now.bytes.now (slot_of self.now.slots.count hash) }
    {
        codec::get_u32(self.bytes, self.slots.slot_place(hash))
    }
}

// Whether K, N and the index's length are within their limits.
pub fn sizes_ok(sizes: IndexSizes, len: usize) -> bool
    ensures { result ≡ sizes_ok sizes.slot_count sizes.item_count len }
{
    let k = sizes.slot_count;
    let n = sizes.item_count;
    let within = (1..=5000000).contains(&k) & (2..=20000000).contains(&n);
    within && len as u64 == 40 + 4 * k + 20 * n
}

// The used count; 0 reads as 1.
pub fn used_count(index: &[u8]) -> u32
    requires { 40 ≤ length index.now }
    ensures { result ≡ used_count index.now }
{
    codec::get_u32(index, Header::USED_COUNT).max(1)
}

// Whether the header is sound: one number after the other, and the two times by the larger of them.
// So each time stays one load: where only a number's top bytes are asked for, the compiler reads single bytes.
pub fn header_sound(index: &[u8], item_count: u64) -> bool
    requires { 40 ≤ length index.now }
    ensures { result ≡ header_sound item_count index.now }
{
    let used = used_count(index);
    if item_count < u64::from(used) {
        return false;
    }
    if used - 1 < codec::get_u32(index, Header::FILLED_SLOTS) {
        return false;
    }
    let first_time = codec::get_u64(index, Header::FIRST_TIME);
    let last_time = codec::get_u64(index, Header::LAST_TIME);
    if Header::MAX_TIME < first_time.max(last_time) {
        return false;
    }
    let first_position = codec::get_u64(index, Header::FIRST_POSITION);
    if Header::MAX_POSITION < first_position {
        return false;
    }
    let last_position = codec::get_u64(index, Header::LAST_POSITION);
    if Header::MAX_POSITION < last_position {
        return false;
    }
    if 1 < used {
        return true;
    }
    (first_time == 0) & (last_time == 0) & (first_position == 0) & (last_position == 0)
}

// Whole seconds from the first time to a store time, kept within 31 bits; 0 if the first time is 0.
fn seconds_of(first_time: u64, store_time: u64) -> u32
    ensures { result ≡ seconds_of first_time store_time }
{
    if first_time == 0 {
        return 0;
    }
    let seconds = store_time.saturating_sub(first_time) / 1000;
    seconds.min(u64::from(Item::MAX_SECONDS)) as u32
}

// The filled slots, after an item in a slot that held `previous`.
fn filled_after(filled: u32, previous: u32) -> u32
    requires { filled < 2147483648 }
    ensures { result ≡ filled_after filled previous }
{
    if previous == 0 { filled + 1 } else { filled }
}

// The seconds of the next item of a record, after item u: item 1 makes the first time the store time.
fn seconds_after(u: u32, seconds: u32) -> u32
    ensures { result ≡ seconds_after u seconds }
{
    if u == 1 { 0 } else { seconds }
}

// The header: both counts, the last fields, and the first ones of an index that had no item.
fn write_header(
    index: &mut [u8],
    fresh: bool,
    used: u32,
    filled: u32,
    position: LogPosition,
    store_time: u64,
)
    requires { 40 ≤ length index.old }
    ensures { index.new ≡ with_header fresh used filled position.0 store_time index.old }
{
    codec::put_u32(index, Header::FILLED_SLOTS, filled);
    codec::put_u32(index, Header::USED_COUNT, used);
    codec::put_u64(index, Header::LAST_TIME, store_time);
    codec::put_u64(index, Header::LAST_POSITION, position.0);
    if fresh {
        codec::put_u64(index, Header::FIRST_TIME, store_time);
        codec::put_u64(index, Header::FIRST_POSITION, position.0);
    }
}

// Item u and its slot, which takes u: the slot's value before. The header stays.
fn put_entry(
    index: &mut [u8],
    slots: Slots,
    u: u32,
    hash: u32,
    position: LogPosition,
    seconds: u32,
) -> u32
    requires { item_at slots.count u + 20 ≤ length index.old }
    ensures { Entered slots.count u hash position seconds index.old result index.new }
{
    let slot = slots.slot_place(hash);
    let previous = codec::get_u32(index, slot);
    let item = Item {
        hash,
        position,
        seconds,
        previous,
    };
    item.write(index, slots, u);
    codec::put_u32(index, slot, u);
    previous
}

// Whether the slot of a hash of the list holds a value that is not below the used count. It reads them all: no read waits for the one before.
pub fn slots_bad(index: &[u8], slot_count: u64, list: &[u32]) -> bool
    requires { (0 < slot_count) × (slot_count ≤ 5000000) × (40 + 4 * slot_count ≤ length index.now) }
    ensures { result ≡ any_bad_slot slot_count index.now list.now }
{
    let slots = Slots { count: slot_count };
    let used = used_count(index);
    let mut bad = false;
    for hash in list {
        bad |= used <= codec::get_u32(index, slots.slot_place(*hash));
    }
    bad
}

// Whether the index has an item and the position is not above its last one.
fn is_ahead(index: &[u8], position: LogPosition) -> bool
    requires { 40 ≤ length index.now }
    ensures { result ≡ is_ahead index.now position.0 }
{
    (1 < used_count(index)) & (position.0 <= codec::get_u64(index, Header::LAST_POSITION))
}

// Whether there is no room for so many items.
fn is_full(index: &[u8], item_count: u64, items: usize) -> bool
    requires { (40 ≤ length index.now) × (items ≤ 16385) }
    ensures { result ≡ is_full item_count index.now items }
{
    item_count < u64::from(used_count(index)) + items as u64
}

// Rule 7 for a record's items of these hashes, judged on the index before the record. Whether their slots are good may be known already.
pub fn items_answer(
    index: &[u8],
    sizes: IndexSizes,
    position: LogPosition,
    list: &[u32],
    judged: bool,
) -> Result<(), Answer>
    requires { IndexSized sizes.slot_count sizes.item_count index.now × (length list.now ≤ 16385) × (judged ≡ true → any_bad_slot sizes.slot_count index.now list.now ≡ false) }
    ensures { result ≡ checked (items_answer sizes.slot_count sizes.item_count index.now position.0 list.now) }
{
    if list.is_empty() {
        return Ok(());
    }
    if is_ahead(index, position) {
        return Err(Answer::IndexAhead);
    }
    if is_full(index, sizes.item_count, list.len()) {
        return Err(Answer::IndexFull);
    }
    if judged {
        return Ok(());
    }
    if slots_bad(index, sizes.slot_count, list) {
        return Err(Answer::ChainBroken);
    }
    Ok(())
}

// An item for each hash of the list, in its order; the header is read before them and written behind them.
pub fn put_all(
    index: &mut [u8],
    sizes: IndexSizes,
    position: LogPosition,
    store_time: u64,
    list: &[u32],
)
    requires { Room sizes.slot_count sizes.item_count index.old (length list.now) }
    ensures { index.new ≡ put_all sizes.slot_count position.0 store_time list.now index.old }
{
    if list.is_empty() {
        return;
    }
    let slots = Slots {
        count: sizes.slot_count,
    };
    let first = used_count(index);
    let first_time = codec::get_u64(index, Header::FIRST_TIME);
    let mut used = first;
    let mut filled = codec::get_u32(index, Header::FILLED_SLOTS);
    let mut seconds = seconds_of(first_time, store_time);
    for hash in list {
        let previous = put_entry(index, slots, used, *hash, position, seconds);
        filled = filled_after(filled, previous);
        seconds = seconds_after(used, seconds);
        used += 1;
    }
    write_header(index, first == 1, used, filled, position, store_time);
}
