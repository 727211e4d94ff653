// The report of a stretch of the log, of include/swistopal.h, which crate swistopal_stretch_c hands to C. It calls the function of its layer and gives
// that answer's number.
#![tactic(auto)]

ghost use Rattle.std.specs.Prelude.{◌≡◌};
ghost use Rattle.swistopal_stretch.specs.Reported.{report};

use units::LogPosition;

#[unsafe(no_mangle)]
pub extern "C" fn swistopal_report(
    log: &[u8],
    sizes: &[u64; 5],
    position: u64,
    readable_end: u64,
    directory: &[u8],
    figures: &mut [u64; 27],
) -> u32
    ensures { record { answer = result; figures = figures.new } ≡ report sizes.now log.now position readable_end directory.now }
{
    let answer = shift_report::report(
        log,
        interface::geometry_in(sizes),
        LogPosition(position),
        LogPosition(readable_end),
        directory,
        figures,
    );
    u32::from(answer)
}
