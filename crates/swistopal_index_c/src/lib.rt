// What C links of the index: the query of include/swistopal.h, as crate swistopal_index has it. It is an object of its own, so that what dispatch hashes
// keys with has no second caller there and is taken into its loop.
#![tactic(auto)]

ghost use Rattle.std.specs.Prelude.{◌≡◌};
ghost use Rattle.swistopal_index.specs.Index.{query};

#[unsafe(no_mangle)]
pub extern "C" fn swistopal_query(
    index: &[u8],
    sizes: &[u64; 5],
    topic: &[u8],
    key: &[u8],
    first_time: u64,
    last_time: u64,
    wanted: u64,
    out: &mut [u64],
    found: &mut [u64; 2],
) -> u32
    ensures { record { answer = result; out = out.new; found = found.new } ≡ query sizes.now index.now topic.now key.now first_time last_time wanted out.old }
{
    swistopal_index::swistopal_query(
        index, sizes, topic, key, first_time, last_time, wanted, out, found,
    )
}
