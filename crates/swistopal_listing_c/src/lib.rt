// What C links of the lister of include/swistopal.h, as crate swistopal_facts has it. It is an object of its own: beside record reading it would be a second
// caller of a record's judge, beside the tag code one of `decode`, and the compiler would leave them as calls.
#![tactic(auto)]

ghost use Rattle.std.specs.Prelude.{◌≡◌};
ghost use Rattle.listing.specs.Listing.{listing};
ghost use Rattle.swistopal_facts.specs.Facts.{list};

#[unsafe(no_mangle)]
pub extern "C" fn swistopal_list(segment: &[u8], text: &mut [u8], written: &mut u64) -> u32
    ensures { record { answer = result; text = text.new; written = written.new } ≡ list (listing segment.now text.old) }
{
    swistopal_facts::swistopal_list(segment, text, written)
}
