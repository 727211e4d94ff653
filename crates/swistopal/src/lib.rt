// Dispatch and queue reading of include/swistopal.h, which crate swistopal_c hands to C. Each calls the function of its layer and gives that answer's
// number. A struct of the header is a lent array here.
#![tactic(auto)]

ghost use Rattle.std.specs.Prelude.{◌≡◌};
ghost use Rattle.swistopal.specs.Interface.{lent, call_in, Dispatches, tag_asked, read_queue};

use units::{Answer, LogPosition, QueueOffset};

#[unsafe(no_mangle)]
pub extern "C" fn swistopal_dispatch(
    log: &[u8],
    readable_end: u64,
    sizes: &[u64; 5],
    directory: &[u8],
    queues: &mut [u8],
    files: &mut [u8],
    budget: u64,
    progress: &mut [u64; 17],
    steps: &mut u64,
) -> u32
    ensures { Dispatches (call_in sizes.now directory.now log.now readable_end budget) (lent progress.old queues.old files.old) result steps.new (lent progress.new queues.new files.new) }
{
    let now = interface::progress_in(progress);
    let mut counts = interface::counts_in(progress);
    let made = dispatch::dispatch(
        log,
        LogPosition(readable_end),
        interface::sizes_in(sizes),
        directory,
        now,
        &mut counts,
        queues,
        files,
        budget,
    );
    interface::put_progress(progress, made.progress, &counts);
    *steps = made.steps;
    u32::from(made.answer)
}

fn tag_asked(given: u32, code: u64) -> Option<u64>
    ensures { result ≡ tag_asked given code }
{
    (given != 0).then_some(code)
}

#[unsafe(no_mangle)]
pub extern "C" fn swistopal_read_queue(
    queues: &[u8],
    sizes: &[u64; 5],
    directory: &[u8],
    progress: &[u64; 17],
    row: u64,
    start: u64,
    wanted: u64,
    tag_given: u32,
    tag_code: u64,
    out: &mut [u64],
    found: &mut u64,
) -> u32
    ensures { record { answer = result; out = out.new; found = found.new } ≡ read_queue queues.now sizes.now directory.now progress.now row start wanted (tag_asked tag_given tag_code) out.old }
{
    let made = consume_queue::read_queue(
        queues,
        interface::queue_entries_in(sizes),
        directory,
        interface::counts_of(progress),
        row,
        QueueOffset(start),
        wanted,
        tag_asked(tag_given, tag_code),
        out,
    );
    match made {
        Ok(count) => {
            *found = count as u64;
            u32::from(Answer::Done)
        }
        Err(answer) => {
            *found = 0;
            u32::from(answer)
        }
    }
}
