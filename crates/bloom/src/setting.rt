// What filters are built with: bits per entry and probes.
ghost use Rattle.std.specs.Prelude.{◌≡◌};
ghost use Rattle.bloom.specs.Filter.{pair_good};

use rules::sizes::PROBES;

#[derive(Clone, Copy)]
pub struct Setting {
    pub bits: u64,
    pub probes: u64,
}

// Bits per entry at the most.
pub const MOST_BITS: u64 = 32;

// Whether a filter with these bits and probes keeps the filter rules, over whatever rows of a table it is built.
pub fn pair_good(bits: u64, probes: u64) -> bool
    ensures { result ≡ pair_good bits probes }
{
    if bits == 0 {
        return false;
    }
    if MOST_BITS < bits {
        return false;
    }
    probes <= PROBES as u64
}
