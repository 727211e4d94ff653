// Append and record reading of include/swistopal.h, which crate swistopal_log_c hands to C. Each calls the function of its layer and gives that answer's
// number.
#![tactic(auto)]

ghost use Rattle.std.specs.Prelude.{◌≡◌};
ghost use Rattle.record_writer.specs.Encode.{parts_of};
ghost use Rattle.swistopal_log.specs.Log.{Appends, read_record};

use record_writer::Parts;
use units::LogPosition;

#[unsafe(no_mangle)]
pub extern "C" fn swistopal_append(
    log: &mut [u8],
    sizes: &[u64; 5],
    fields: &[u64; 9],
    born_host: &[u8],
    store_host: &[u8],
    body: &[u8],
    topic: &[u8],
    properties: &[u8],
    write_position: &mut u64,
) -> u32
    ensures { Appends sizes.now fields.now (parts_of born_host.now store_host.now body.now topic.now properties.now) log.old write_position.old result log.new write_position.new }
{
    let w = LogPosition(*write_position);
    let made = commit_log::append(
        log,
        interface::geometry_in(sizes),
        w,
        fields,
        Parts {
            born_host,
            store_host,
            body,
            topic,
            properties,
        },
    );
    *write_position = made.write_position.0;
    u32::from(made.answer)
}

#[unsafe(no_mangle)]
pub extern "C" fn swistopal_read_record(
    log: &[u8],
    sizes: &[u64; 5],
    position: u64,
    readable_end: u64,
    record: &mut [u64; 22],
) -> u32
    ensures { record { answer = result; «record» = «record».new } ≡ read_record sizes.now log.now position readable_end }
{
    let answer = commit_log::read_record(
        log,
        interface::geometry_in(sizes),
        LogPosition(position),
        LogPosition(readable_end),
        record,
    );
    u32::from(answer)
}
