// Records read ahead as requests and filed one by one: the steps of an advance.
#![tactic(auto)]

ghost use Rattle.std.specs.Prelude.{◌≡◌, ℕ, ◌+◌, ◌≤◌, ◌<◌, length};
ghost use Rattle.commit_log.specs.Door.{GeometryFits, Within};
ghost use Rattle.dispatch_request.specs.Reading.{Listed};
ghost use Rattle.dispatch_step.specs.Step.{state_of};
ghost use Rattle.dispatch_step.specs.Door.{Admitted};
ghost use Rattle.dispatch_ahead.specs.Ahead.{fixed_in, view_in, RoomAhead, Batched, pass_by, AdvancesTo};
ghost use Rattle.dispatch_ahead.specs.declared.Behind.TheVariants.{Blank};

use dispatch_request::DispatchRequest;
use dispatch_step::{Progress, Sizes};
use record::Entry;
use units::{Answer, LogPosition};

// What stays the same through a call: the log up to its readable end, the sizes, the directory.
#[derive(Clone, Copy)]
pub struct Call<'a> {
    pub log: &'a [u8],
    pub readable_end: LogPosition,
    pub sizes: Sizes,
    pub directory: &'a [u8],
}

// What was read ahead: so many records with so many items, and what stands behind them, as far as it was looked at.
#[derive(Clone, Copy)]
struct Batch {
    records: usize,
    items: usize,
    behind: Behind,
}

// What stands behind the records that were read ahead: not looked at, a stop, a blank of so many bytes, a record with more items than the list
// has places left.
#[derive(Clone, Copy)]
enum Behind {
    Unread,
    Stop(Answer),
    Blank(u64),
    Long,
}

// Why an advance ends: so many steps are made, a rule stops the next one, or the next record has more items than the list has places.
#[derive(Clone, Copy)]
pub enum Ended {
    Going,
    Stopped(Answer),
    Long,
}

// The progress behind the steps of an advance, their number, and why it ends.
#[derive(Clone, Copy)]
pub struct Advanced {
    pub progress: Progress,
    pub steps: u64,
    pub ended: Ended,
}

// The most records that are read ahead.
pub const BATCH: usize = 16;

// The same of a short call: places that it does not need are not filled.
pub const SHORT_BATCH: usize = 4;

// The places of a list that has them for the items of nearly every batch.
pub const SHORT_LIST: usize = 64;

// The records from a position on, as far as they can be read and the list has places for their hashes, up to so many.
fn read_ahead(
    call: &Call<'_>,
    position: LogPosition,
    most: u64,
    requests: &mut [DispatchRequest],
    list: &mut [u32],
) -> Batch
    requires { GeometryFits call.now.sizes.geometry (length call.now.log.now) × Within call.now.sizes.geometry (length call.now.log.now) position call.now.readable_end × Listed call.now.directory.now × RoomAhead requests.old list.old }
    ensures { Batched (fixed_in call.now) (view_in call.now) position most result requests.new list.new }
{
    let mut at = position;
    let mut items = 0;
    let places = requests.len().min(most as usize);
    for (records, place) in requests[..places].iter_mut().enumerate() {
        if list.len() <= items {
            return Batch {
                records,
                items,
                behind: Behind::Unread,
            };
        }
        let next = dispatch_request::read_request(
            call.log,
            call.sizes.geometry,
            call.readable_end,
            call.directory,
            at,
            &mut list[items..],
        );
        let behind = match next {
            Ok(Entry::Message(Some(request))) => {
                *place = request;
                items += request.items;
                at = LogPosition(at.0 + request.total);
                continue;
            }
            Err(answer) => Behind::Stop(answer),
            Ok(Entry::Blank(n)) => Behind::Blank(n),
            Ok(Entry::Message(None)) => Behind::Long,
        };
        return Batch {
            records,
            items,
            behind,
        };
    }
    Batch {
        records: places,
        items,
        behind: Behind::Unread,
    }
}

// Behind the records of a batch, all filed: a blank is a step more.
fn pass(progress: Progress, steps: usize, behind: Behind) -> Advanced
    requires { (steps ≤ 16) × ((n : ℕ) → behind ≡ Blank n → progress.position.0 + n < 18446744073709551616) }
    ensures { result ≡ pass_by progress steps behind }
{
    let steps = steps as u64;
    let ended = match behind {
        Behind::Unread => Ended::Going,
        Behind::Stop(answer) => Ended::Stopped(answer),
        Behind::Blank(n) => {
            let position = LogPosition(progress.position.0 + n);
            return Advanced {
                progress: Progress { position },
                steps: steps + 1,
                ended: Ended::Going,
            };
        }
        Behind::Long if steps == 0 => Ended::Long,
        Behind::Long => Ended::Going,
    };
    Advanced {
        progress,
        steps,
        ended,
    }
}

// Steps from a state on, up to so many: records are read ahead as requests, all their slots are judged, one close behind the other, and the
// requests are filed one by one. A slot that is good before them stays good. What `requests` and `list` hold afterwards is left open.
pub fn advance(
    call: &Call<'_>,
    progress: Progress,
    counts: &mut [u64; 16],
    queues: &mut [u8],
    index: &mut [u8],
    most: u64,
    requests: &mut [DispatchRequest],
    list: &mut [u32],
) -> Advanced
    requires { Admitted (fixed_in call.now) (view_in call.now) (state_of progress counts.old queues.old index.old) × RoomAhead requests.old list.old }
    ensures { AdvancesTo (fixed_in call.now) (view_in call.now) most (length list.old) (state_of progress counts.old queues.old index.old) result counts.new queues.new index.new }
{
    let read = read_ahead(call, progress.position, most, requests, list);
    let good = !index_file::slots_bad(index, call.sizes.index.slot_count, &list[..read.items]);
    let mut now = progress;
    let mut first = 0;
    for (done, request) in requests[..read.records].iter().enumerate() {
        let end = first + request.items;
        let filed = dispatch_step::file(
            *request,
            &list[first..end],
            good,
            call.sizes,
            now,
            counts,
            queues,
            index,
        );
        match filed {
            Ok(next) => now = next,
            Err(answer) => {
                return Advanced {
                    progress: now,
                    steps: done as u64,
                    ended: Ended::Stopped(answer),
                };
            }
        }
        first = end;
    }
    pass(now, read.records, read.behind)
}
