// Dispatch: the door, and the steps of a call under its budget.
#![tactic(auto)]

ghost use Rattle.std.specs.Prelude.{◌≡◌, ◌+◌, ◌<◌, ◌≤◌, length};
ghost use Rattle.commit_log.specs.Door.{GeometryFits};
ghost use Rattle.machine.specs.Steps.{run};
ghost use Rattle.machine.specs.Calls.{call};
ghost use Rattle.dispatch_step.specs.Step.{state_of, step_of};
ghost use Rattle.dispatch_step.specs.Door.{Admitted};
ghost use Rattle.dispatch_ahead.specs.Ahead.{fixed_in, view_in, RoomAhead};
ghost use Rattle.dispatch.specs.Dispatch.{sizes_fit, progress_bad, dispatcher, call_of, ran_of};
ghost use Rattle.dispatch.specs.Inner.{Runs};

use dispatch_ahead::{BATCH, Call, Ended, SHORT_BATCH, SHORT_LIST};
use dispatch_request::DispatchRequest;
use dispatch_step::{Progress, Sizes};
use units::{Answer, LogPosition};

// How a call ends: the answer, the steps done, and the progress behind them.
#[derive(Clone, Copy)]
pub struct Dispatched {
    pub answer: Answer,
    pub steps: u64,
    pub progress: Progress,
}

// The steps done before a record that has more items than the lent list has places, and the progress behind them.
#[derive(Clone, Copy)]
struct TooShort {
    steps: u64,
    progress: Progress,
}

// Steps, until the budget is spent, one is stopped, or the list is too short.
fn run_steps(
    call: &Call<'_>,
    progress: Progress,
    counts: &mut [u64; 16],
    queues: &mut [u8],
    index: &mut [u8],
    budget: u64,
    requests: &mut [DispatchRequest],
    list: &mut [u32],
) -> Result<Dispatched, TooShort>
    requires { Admitted (fixed_in call.now) (view_in call.now) (state_of progress counts.old queues.old index.old) × RoomAhead requests.old list.old }
    ensures { Runs (fixed_in call.now) (view_in call.now) budget (length list.old) (state_of progress counts.old queues.old index.old) result counts.new queues.new index.new }
{
    // A copy of its own: what is behind a reference would be read again behind every write.
    let call = *call;
    let mut now = progress;
    let mut steps = 0;
    while steps < budget {
        let advanced = dispatch_ahead::advance(
            &call,
            now,
            counts,
            queues,
            index,
            budget - steps,
            requests,
            list,
        );
        now = advanced.progress;
        steps += advanced.steps;
        match advanced.ended {
            Ended::Going => {}
            Ended::Stopped(answer) => {
                return Ok(Dispatched {
                    answer,
                    steps,
                    progress: now,
                });
            }
            Ended::Long => return Err(TooShort {
                steps,
                progress: now,
            }),
        }
    }
    Ok(Dispatched {
        answer: Answer::BudgetSpent,
        steps,
        progress: now,
    })
}

// The same, with places for so many requests and hashes.
fn run<const REQUESTS: usize, const PLACES: usize>(
    call: &Call<'_>,
    progress: Progress,
    counts: &mut [u64; 16],
    queues: &mut [u8],
    index: &mut [u8],
    budget: u64,
) -> Result<Dispatched, TooShort>
    requires { Admitted (fixed_in call.now) (view_in call.now) (state_of progress counts.old queues.old index.old) × (1 ≤ REQUESTS) × (REQUESTS ≤ 16) × (0 < PLACES) × (PLACES ≤ 16385) }
    ensures { Runs (fixed_in call.now) (view_in call.now) budget PLACES (state_of progress counts.old queues.old index.old) result counts.new queues.new index.new }
{
    let mut requests = [DispatchRequest::NONE; REQUESTS];
    let mut list = [0; PLACES];
    run_steps(
        call,
        progress,
        counts,
        queues,
        index,
        budget,
        &mut requests,
        &mut list,
    )
}

// Steps with a list for any record. It is never taken into its caller, so that its 64 KiB are on the stack only where they are used.
#[inline(never)]
fn run_long(
    call: &Call<'_>,
    progress: Progress,
    counts: &mut [u64; 16],
    queues: &mut [u8],
    index: &mut [u8],
    budget: u64,
) -> Dispatched
    requires { Admitted (fixed_in call.now) (view_in call.now) (state_of progress counts.old queues.old index.old) }
    ensures { ran_of result counts.new queues.new index.new ≡ run (step_of (fixed_in call.now) (view_in call.now)) budget (state_of progress counts.old queues.old index.old) }
{
    let ran = run::<BATCH, { DispatchRequest::MOST_ITEMS }>(
        call, progress, counts, queues, index, budget,
    );
    match ran {
        Ok(ended) => ended,
        Err(_) => unreachable!(),
    }
}

// Steps with places for as many requests as they may take, up to 16, and a short list, which takes nearly every record.
fn run_short(
    call: &Call<'_>,
    progress: Progress,
    counts: &mut [u64; 16],
    queues: &mut [u8],
    index: &mut [u8],
    budget: u64,
) -> Result<Dispatched, TooShort>
    requires { Admitted (fixed_in call.now) (view_in call.now) (state_of progress counts.old queues.old index.old) }
    ensures { Runs (fixed_in call.now) (view_in call.now) budget SHORT_LIST (state_of progress counts.old queues.old index.old) result counts.new queues.new index.new }
{
    if budget <= SHORT_BATCH as u64 {
        run::<SHORT_BATCH, SHORT_LIST>(call, progress, counts, queues, index, budget)
    } else {
        run::<BATCH, SHORT_LIST>(call, progress, counts, queues, index, budget)
    }
}

// The steps of a call: from the first record that has more items than a short list has places, with one for any record.
fn run_call(
    call: &Call<'_>,
    progress: Progress,
    counts: &mut [u64; 16],
    queues: &mut [u8],
    index: &mut [u8],
    budget: u64,
) -> Dispatched
    requires { Admitted (fixed_in call.now) (view_in call.now) (state_of progress counts.old queues.old index.old) }
    ensures { ran_of result counts.new queues.new index.new ≡ run (step_of (fixed_in call.now) (view_in call.now)) budget (state_of progress counts.old queues.old index.old) }
{
    let ran = run_short(call, progress, counts, queues, index, budget);
    match ran {
        Ok(ended) => ended,
        Err(done) => {
            let left = budget - done.steps;
            let rest = run_long(call, done.progress, counts, queues, index, left);
            Dispatched {
                steps: done.steps + rest.steps,
                ..rest
            }
        }
    }
}

// Door check 1, of a log and an index of so many bytes.
fn sizes_fit(sizes: Sizes, log: usize, index: usize) -> bool
    ensures { result ≡ sizes_fit sizes log index }
{
    commit_log::geometry_ok(sizes.geometry, log as u64)
        & consume_queue::entries_ok(sizes.queue_entries)
        & index_file::sizes_ok(sizes.index, index)
}

// Door check 2.
fn progress_bad(
    sizes: Sizes,
    log: usize,
    progress: Progress,
    readable_end: LogPosition,
    counts: &[u64; 16],
) -> bool
    requires { GeometryFits sizes.geometry log }
    ensures { result ≡ progress_bad sizes log progress readable_end counts.now }
{
    let p = progress.position.0;
    let e = readable_end.0;
    let first = sizes.geometry.first_position.0;
    let outside = (p < first) | (e < p) | (first + (log as u64) < e);
    outside | !consume_queue::counts_ok(counts, sizes.queue_entries)
}

// A call that ends before its first step.
fn no_step(answer: Answer, progress: Progress) -> Dispatched
    ensures { result ≡ record { answer = answer; steps = 0; progress = progress } }
{
    Dispatched {
        answer,
        steps: 0,
        progress,
    }
}

// Dispatch: door checks 1, 3, 2 and 4, then steps under the budget.
pub fn dispatch(
    log: &[u8],
    readable_end: LogPosition,
    sizes: Sizes,
    directory: &[u8],
    progress: Progress,
    counts: &mut [u64; 16],
    queues: &mut [u8],
    index: &mut [u8],
    budget: u64,
) -> Dispatched
    ensures { ran_of result counts.new queues.new index.new ≡ call dispatcher (call_of sizes directory.now log.now readable_end budget) (state_of progress counts.old queues.old index.old) }
{
    if !sizes_fit(sizes, log.len(), index.len()) {
        return no_step(Answer::BadSizes, progress);
    }
    if consume_queue::queue_rows(directory, sizes.queue_entries, queues.len()).is_none() {
        return no_step(Answer::BadDirectory, progress);
    }
    if progress_bad(sizes, log.len(), progress, readable_end, counts) {
        return no_step(Answer::BadPosition, progress);
    }
    if !index_file::header_sound(index, sizes.index.item_count) {
        return no_step(Answer::BadHeader, progress);
    }
    if budget == 0 {
        return no_step(Answer::BudgetSpent, progress);
    }
    let call = Call {
        log,
        readable_end,
        sizes,
        directory,
    };
    run_call(&call, progress, counts, queues, index, budget)
}
