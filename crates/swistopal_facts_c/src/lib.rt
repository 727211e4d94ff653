// What C links of the small functions of include/swistopal.h, which tell what a record makes and whether an index file is sound, as crate swistopal_facts
// has them. They are an object of their own, so that what dispatch and record reading judge a record with has no second caller there, which would keep
// the compiler from taking it into theirs.
#![tactic(auto)]

ghost use Rattle.std.specs.Prelude.{◌≡◌, length};
ghost use Rattle.codec.specs.Choice.{pick};
ghost use Rattle.units.specs.Answers.{number_of};
ghost use Rattle.java_hash.specs.Hash.{tag_code};
ghost use Rattle.properties.specs.Finder.{scanned};
ghost use Rattle.dispatch_request.specs.Request.{transaction, makes_entry, makes_items, record_keys, has_item};
ghost use Rattle.interface.specs.Structs.{index_sizes_in};
ghost use Rattle.swistopal_facts.specs.Facts.{values_of, index_answer};

#[unsafe(no_mangle)]
pub extern "C" fn swistopal_tag_code(tag: &[u8]) -> u64
    ensures { result ≡ tag_code tag.now }
{
    swistopal_facts::swistopal_tag_code(tag)
}

#[unsafe(no_mangle)]
pub extern "C" fn swistopal_makes_entry(system_flag: u64) -> u32
    ensures { result ≡ pick (makes_entry (transaction system_flag)) 1 0 }
{
    swistopal_facts::swistopal_makes_entry(system_flag)
}

#[unsafe(no_mangle)]
pub extern "C" fn swistopal_item_count(system_flag: u64, properties: &[u8]) -> u64
    ensures { result ≡ length (record_keys (makes_items (transaction system_flag)) properties.now) }
{
    swistopal_facts::swistopal_item_count(system_flag, properties)
}

#[unsafe(no_mangle)]
pub extern "C" fn swistopal_has_item(
    system_flag: u64,
    record_topic: &[u8],
    properties: &[u8],
    topic: &[u8],
    key: &[u8],
) -> u32
    ensures { result ≡ pick (has_item system_flag record_topic.now properties.now topic.now key.now) 1 0 }
{
    swistopal_facts::swistopal_has_item(system_flag, record_topic, properties, topic, key)
}

#[unsafe(no_mangle)]
pub extern "C" fn swistopal_find_values(properties: &[u8], values: &mut [u64; 6])
    ensures { values.new ≡ values_of (scanned properties.now) }
{
    swistopal_facts::swistopal_find_values(properties, values);
}

#[unsafe(no_mangle)]
pub extern "C" fn swistopal_check_index(index: &[u8], sizes: &[u64; 5]) -> u32
    ensures { result ≡ number_of (index_answer (index_sizes_in sizes.now) index.now) }
{
    swistopal_facts::swistopal_check_index(index, sizes)
}
