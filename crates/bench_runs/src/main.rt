// Document 01's acceptance bench, rows that are only run: records of topic T and unique key k, appended and dispatched into an index of 2 slots and
// 4 items. Each of the first three lines, with two records stored at 10,000 and 10,999: from time, the second item's link, then the answer's number,
// the positions found and the items read. The other two, with one: its system flag, then dispatch's answer, its steps, the queue's entries and the
// used count.
#![tactic(auto)]

ghost use Rattle.std.specs.Prelude.{◌+◌, ◌≤◌};

use commit_log::Geometry;
use dispatch::Dispatched;
use dispatch_step::{Progress, Sizes};
use index_file::IndexSizes;
use record_writer::Parts;
use std::io;
use units::LogPosition;

const GEOMETRY: Geometry = Geometry {
    segment_size: 1024,
    first_position: LogPosition(0),
};

const INDEX: IndexSizes = IndexSizes {
    slot_count: 2,
    item_count: 4,
};

const HOST: [u8; 8] = [0; 8];

// The used count, and the second item's link.
const USED: usize = 36;

const LINK: usize = 104;

// The number in four bytes of the index.
fn number_at(index: &[u8; 128], at: usize) -> u64
    requires { at + 4 ≤ 128 }
{
    u64::from(codec::get_u32(index, at))
}

// One record more, the queue's with this offset: the log's end behind it.
fn append(
    log: &mut [u8; 1024],
    end: LogPosition,
    offset: u64,
    system_flag: u64,
    store_time: u64,
) -> LogPosition {
    let fields = [0, 0, 0, offset, system_flag, 0, store_time, 0, 0];
    commit_log::append(
        log,
        GEOMETRY,
        end,
        &fields,
        Parts {
            born_host: &HOST,
            store_host: &HOST,
            body: b"",
            topic: b"T",
            properties: b"UNIQ_KEY\x01k",
        },
    )
    .write_position
}

// The log, dispatched from its start.
fn file(
    log: &[u8; 1024],
    end: LogPosition,
    counts: &mut [u64; 16],
    index: &mut [u8; 128],
) -> Dispatched {
    let mut queues = [0u8; 40];
    let sizes = Sizes {
        geometry: GEOMETRY,
        queue_entries: 2,
        index: INDEX,
    };
    let start = Progress {
        position: LogPosition(0),
    };
    dispatch::dispatch(
        log,
        end,
        sizes,
        b"\x09\x00\x01\x00\x00\x00\x00\x00T",
        start,
        counts,
        &mut queues,
        index,
        3,
    )
}

// The query from this time on.
fn ask(rt: &HostRuntime, index: &[u8; 128], from: u64) -> io::Result<()> {
    let mut out = [0u64; 5];
    let made = index_query::query(index, INDEX, b"T", b"k", from, 20000, 5, &mut out);
    let link = number_at(index, LINK);
    println!(rt;
        "{from} {link} {} {} {}",
        u32::from(made.answer),
        made.found,
        made.read
    )
}

fn two_records(index: &mut [u8; 128]) {
    let mut log = [0u8; 1024];
    let mut counts = [0u64; 16];
    let middle = append(&mut log, LogPosition(0), 0, 0, 10000);
    let end = append(&mut log, middle, 1, 0, 10999);
    file(&log, end, &mut counts, index);
}

fn one_record(rt: &HostRuntime, system_flag: u64) -> io::Result<()> {
    let mut log = [0u8; 1024];
    let mut counts = [0u64; 16];
    let mut index = [0u8; 128];
    let end = append(&mut log, LogPosition(0), 0, system_flag, 10000);
    let made = file(&log, end, &mut counts, &mut index);
    let used = number_at(&index, USED);
    println!(rt;
        "{system_flag} {} {} {} {used}",
        u32::from(made.answer),
        made.steps,
        counts[0]
    )
}

fn main(rt: HostRuntime) -> io::Result<()> {
    let mut index = [0u8; 128];
    two_records(&mut index);
    ask(&rt, &index, 10000)?;
    ask(&rt, &index, 10500)?;
    codec::put_u32(&mut index, LINK, 2);
    ask(&rt, &index, 10000)?;
    one_record(&rt, 0)?;
    one_record(&rt, 4)
}
