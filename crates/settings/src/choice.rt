// What a station may choose.
ghost use Rattle.std.specs.Prelude.{◌&&◌, ◌≡◌, leb};
ghost use Rattle.settings.specs.Settings.{allowed, crate_choice};

use bloom::parse::{BITS_PER_ENTRY, NUM_PROBES};
use bloom::setting::MOST_BITS;
use rules::sizes::PROBES;

// The bits and probes that filters are built with, and whether the station is read-only, 0 or 1. The last acts on nothing by itself.
#[derive(Clone, Copy)]
pub struct Choice {
    pub bits: u64,
    pub probes: u64,
    pub read_only: u64,
}

// As the crate has it, and not read-only.
pub fn crate_choice() -> Choice
    ensures { result ≡ crate_choice }
{
    Choice {
        bits: BITS_PER_ENTRY,
        probes: NUM_PROBES,
        read_only: 0,
    }
}

// Whether a number is at least 1 and at most another.
fn within(number: u64, most: u64) -> bool
    ensures { result ≡ (leb 1 number && leb number most) }
{
    if number < 1 {
        return false;
    }
    number <= most
}

// Whether a station may choose this.
pub fn allowed(choice: Choice) -> bool
    ensures { result ≡ allowed choice }
{
    if !within(choice.bits, MOST_BITS) {
        return false;
    }
    if !within(choice.probes, PROBES as u64) {
        return false;
    }
    choice.read_only <= 1
}
