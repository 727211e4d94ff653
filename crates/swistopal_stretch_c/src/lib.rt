// What C links of a stretch of the log: its report, of include/swistopal.h, as crate swistopal_stretch has it. It is an object of its own, so that neither
// its functions nor dispatch's have a second caller, which would keep the compiler from taking them into its loops.
#![tactic(auto)]

ghost use Rattle.std.specs.Prelude.{◌≡◌};
ghost use Rattle.swistopal_stretch.specs.Reported.{report};

#[unsafe(no_mangle)]
pub extern "C" fn swistopal_report(
    log: &[u8],
    sizes: &[u64; 5],
    position: u64,
    readable_end: u64,
    directory: &[u8],
    figures: &mut [u64; 27],
) -> u32
    ensures { record { answer = result; figures = figures.new } ≡ report sizes.now log.now position readable_end directory.now }
{
    swistopal_stretch::swistopal_report(log, sizes, position, readable_end, directory, figures)
}
