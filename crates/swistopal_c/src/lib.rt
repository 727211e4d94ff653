// What C links: dispatch and queue reading of include/swistopal.h. Each calls the function of crate swistopal that has its name, and promises what that
// promises. A crate is a library or what C links, and not both, so these stand apart.
#![tactic(auto)]

ghost use Rattle.std.specs.Prelude.{◌≡◌};
ghost use Rattle.swistopal.specs.Interface.{lent, call_in, Dispatches, tag_asked, read_queue};

#[unsafe(no_mangle)]
pub extern "C" fn swistopal_dispatch(
    log: &[u8],
    readable_end: u64,
    sizes: &[u64; 5],
    directory: &[u8],
    queues: &mut [u8],
    files: &mut [u8],
    budget: u64,
    progress: &mut [u64; 17],
    steps: &mut u64,
) -> u32
    ensures { Dispatches (call_in sizes.now directory.now log.now readable_end budget) (lent progress.old queues.old files.old) result steps.new (lent progress.new queues.new files.new) }
{
    swistopal::swistopal_dispatch(
        log,
        readable_end,
        sizes,
        directory,
        queues,
        files,
        budget,
        progress,
        steps,
    )
}

#[unsafe(no_mangle)]
pub extern "C" fn swistopal_read_queue(
    queues: &[u8],
    sizes: &[u64; 5],
    directory: &[u8],
    progress: &[u64; 17],
    row: u64,
    start: u64,
    wanted: u64,
    tag_given: u32,
    tag_code: u64,
    out: &mut [u64],
    found: &mut u64,
) -> u32
    ensures { record { answer = result; out = out.new; found = found.new } ≡ read_queue queues.now sizes.now directory.now progress.now row start wanted (tag_asked tag_given tag_code) out.old }
{
    swistopal::swistopal_read_queue(
        queues, sizes, directory, progress, row, start, wanted, tag_given, tag_code, out, found,
    )
}
