// One dispatch step: what stands at the position is read as a request, and the request is filed.
#![tactic(auto)]

ghost use Rattle.std.specs.Prelude.{◌≡◌};
ghost use Rattle.dispatch_step.specs.Step.{state_of};
ghost use Rattle.dispatch_step.specs.Filing.{Fileable, Files};

use commit_log::Geometry;
use dispatch_request::DispatchRequest;
use index_file::IndexSizes;
use units::{Answer, LogPosition};

// What stays the same between calls: the log's geometry, the entries of a queue, the slots and items of the index.
#[derive(Clone, Copy)]
pub struct Sizes {
    pub geometry: Geometry,
    pub queue_entries: u64,
    pub index: IndexSizes,
}

// What a call hands to the next one, but for the counts, which are lent beside it.
#[derive(Clone, Copy)]
pub struct Progress {
    pub position: LogPosition,
}

// Rules 6 and 7: every check on the state before, then entry and items; the progress behind the record, or the answer of the rule that stops it. The
// list has the hashes of the items; whether their slots are good may be known already.
pub fn file(
    request: DispatchRequest,
    list: &[u32],
    judged: bool,
    sizes: Sizes,
    progress: Progress,
    counts: &mut [u64; 16],
    queues: &mut [u8],
    index: &mut [u8],
) -> Result<Progress, Answer>
    requires { Fileable sizes request list.now judged (state_of progress counts.old queues.old index.old) }
    ensures { Files sizes request list.now (state_of progress counts.old queues.old index.old) result counts.new queues.new index.new }
{
    let DispatchRequest {
        total,
        entry,
        row,
        queue_offset,
        tag_code,
        store_time,
        ..
    } = request;
    let position = progress.position;
    let entries = sizes.queue_entries;
    consume_queue::entry_answer(entry, row, queue_offset, entries, counts)?;
    index_file::items_answer(index, sizes.index, position, list, judged)?;
    consume_queue::enter(
        entry, row, queues, counts, entries, position, total, tag_code,
    );
    index_file::put_all(index, sizes.index, position, store_time, list);
    let behind = LogPosition(position.0 + total);
    Ok(Progress { position: behind })
}
