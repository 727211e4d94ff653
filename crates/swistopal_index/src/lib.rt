// The query of include/swistopal.h, which crate swistopal_index_c hands to C. It calls the function of its layer and gives that answer's number.
#![tactic(auto)]

ghost use Rattle.std.specs.Prelude.{◌≡◌};
ghost use Rattle.swistopal_index.specs.Index.{query};

#[unsafe(no_mangle)]
pub extern "C" fn swistopal_query(
    index: &[u8],
    sizes: &[u64; 5],
    topic: &[u8],
    key: &[u8],
    first_time: u64,
    last_time: u64,
    wanted: u64,
    out: &mut [u64],
    found: &mut [u64; 2],
) -> u32
    ensures { record { answer = result; out = out.new; found = found.new } ≡ query sizes.now index.now topic.now key.now first_time last_time wanted out.old }
{
    let made = index_query::query(
        index,
        interface::index_sizes_in(sizes),
        topic,
        key,
        first_time,
        last_time,
        wanted,
        out,
    );
    *found = [made.found, made.read];
    u32::from(made.answer)
}
