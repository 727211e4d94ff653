// What a record makes, whether an index file is sound, and what a segment holds, for programs that would else repeat a rule: further functions of
// include/swistopal.h, which crates swistopal_facts_c and swistopal_listing_c hand to C.
#![tactic(auto)]

ghost use Rattle.std.specs.Prelude.{◌≡◌, length};
ghost use Rattle.codec.specs.Choice.{pick};
ghost use Rattle.units.specs.Answers.{number_of};
ghost use Rattle.java_hash.specs.Hash.{tag_code};
ghost use Rattle.properties.specs.Finder.{scanned};
ghost use Rattle.dispatch_request.specs.Request.{transaction, makes_entry, makes_items, record_keys, has_item};
ghost use Rattle.interface.specs.Structs.{index_sizes_in};
ghost use Rattle.listing.specs.Listing.{listing};
ghost use Rattle.swistopal_facts.specs.Facts.{place_of, values_of, index_answer, list};

use index_file::{Index, IndexSizes};
use properties::Found;
use units::{Answer, Place};

// A tag's code, as a queue entry has it.
#[unsafe(no_mangle)]
pub extern "C" fn swistopal_tag_code(tag: &[u8]) -> u64
    ensures { result ≡ tag_code tag.now }
{
    java_hash::any_tag_code(tag)
}

fn bit(b: bool) -> u32
    ensures { result ≡ pick b 1 0 }
{
    if b { 1 } else { 0 }
}

#[unsafe(no_mangle)]
pub extern "C" fn swistopal_makes_entry(system_flag: u64) -> u32
    ensures { result ≡ pick (makes_entry (transaction system_flag)) 1 0 }
{
    bit(dispatch_request::makes_entry(system_flag))
}

#[unsafe(no_mangle)]
pub extern "C" fn swistopal_item_count(system_flag: u64, properties: &[u8]) -> u64
    ensures { result ≡ length (record_keys (makes_items (transaction system_flag)) properties.now) }
{
    let found = properties::scan(properties).values;
    dispatch_request::item_count(system_flag, properties, found) as u64
}

#[unsafe(no_mangle)]
pub extern "C" fn swistopal_has_item(
    system_flag: u64,
    record_topic: &[u8],
    properties: &[u8],
    topic: &[u8],
    key: &[u8],
) -> u32
    ensures { result ≡ pick (has_item system_flag record_topic.now properties.now topic.now key.now) 1 0 }
{
    bit(dispatch_request::has_item(system_flag, record_topic, properties, topic, key))
}

fn place_of(found: Found) -> Place
    ensures { result ≡ place_of found }
{
    found.place().unwrap_or_default()
}

#[unsafe(no_mangle)]
pub extern "C" fn swistopal_find_values(properties: &[u8], values: &mut [u64; 6])
    ensures { values.new ≡ values_of (scanned properties.now) }
{
    let found = properties::scan(properties).values;
    let tags = place_of(found.tags);
    let keys = place_of(found.keys);
    let unique_key = place_of(found.unique_key);
    *values = [
        tags.at as u64,
        tags.len as u64,
        keys.at as u64,
        keys.len as u64,
        unique_key.at as u64,
        unique_key.len as u64,
    ];
}

fn index_answer(sizes: IndexSizes, index: &[u8]) -> Answer
    ensures { result ≡ index_answer sizes index.now }
{
    Index::open(index, sizes).err().unwrap_or(Answer::Done)
}

#[unsafe(no_mangle)]
pub extern "C" fn swistopal_check_index(index: &[u8], sizes: &[u64; 5]) -> u32
    ensures { result ≡ number_of (index_answer (index_sizes_in sizes.now) index.now) }
{
    let z = interface::index_sizes_in(sizes);
    u32::from(index_answer(z, index))
}

// A segment as the lister's text.
#[unsafe(no_mangle)]
pub extern "C" fn swistopal_list(segment: &[u8], text: &mut [u8], written: &mut u64) -> u32
    ensures { record { answer = result; text = text.new; written = written.new } ≡ list (listing segment.now text.old) }
{
    let made = listing::list(segment, text);
    *written = made.written as u64;
    u32::from(made.answer)
}
