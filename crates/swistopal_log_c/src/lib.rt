// What C links of the log alone: append and record reading of include/swistopal.h, as crate swistopal_log has them. They are an object of their own, so
// that what dispatch reads a record with has no second caller there and is taken into its loop.
#![tactic(auto)]

ghost use Rattle.std.specs.Prelude.{◌≡◌};
ghost use Rattle.record_writer.specs.Encode.{parts_of};
ghost use Rattle.swistopal_log.specs.Log.{Appends, read_record};

#[unsafe(no_mangle)]
pub extern "C" fn swistopal_append(
    log: &mut [u8],
    sizes: &[u64; 5],
    fields: &[u64; 9],
    born_host: &[u8],
    store_host: &[u8],
    body: &[u8],
    topic: &[u8],
    properties: &[u8],
    write_position: &mut u64,
) -> u32
    ensures { Appends sizes.now fields.now (parts_of born_host.now store_host.now body.now topic.now properties.now) log.old write_position.old result log.new write_position.new }
{
    swistopal_log::swistopal_append(
        log,
        sizes,
        fields,
        born_host,
        store_host,
        body,
        topic,
        properties,
        write_position,
    )
}

#[unsafe(no_mangle)]
pub extern "C" fn swistopal_read_record(
    log: &[u8],
    sizes: &[u64; 5],
    position: u64,
    readable_end: u64,
    record: &mut [u64; 22],
) -> u32
    ensures { record { answer = result; «record» = «record».new } ≡ read_record sizes.now log.now position readable_end }
{
    swistopal_log::swistopal_read_record(log, sizes, position, readable_end, record)
}
