// The filter rules, for a filter that is passed as numbers.
ghost use Rattle.std.specs.Prelude.{◌≡◌, ◌≤◌};
ghost use Rattle.bloom.specs.Filter.{field_size, filter_rules};
ghost use Rattle.leb128.specs.Number.{most_filter};

use leb128::leb128::MOST_FILTER;
use rules::sizes::{FIELD_SIZE, PROBES};

// Bytes of a bit field, in whole numbers, which agree with the crate's f64 inside the sizes.
pub fn bits_capacity(entries: u64, bits: u64) -> u64
    requires { (entries ≤ most_filter) × (bits ≤ most_filter) }
    ensures { result ≡ field_size entries bits }
{
    (entries * bits + 7) / 8
}

// Whether numbers and a field of `size` bytes are a filter.
pub fn filter_rules(entries: u64, bits: u64, probes: u64, size: u64) -> bool
    ensures { result ≡ filter_rules entries bits probes size }
{
    if MOST_FILTER < entries {
        return false;
    }
    if MOST_FILTER < bits {
        return false;
    }
    if MOST_FILTER < probes {
        return false;
    }
    if size != bits_capacity(entries, bits) {
        return false;
    }
    if entries == 0 {
        return true;
    }
    if bits == 0 {
        return false;
    }
    if (PROBES as u64) < probes {
        return false;
    }
    size <= FIELD_SIZE as u64
}

// Whether a filter that is to be built keeps the filter rules, once its field has the size that its entries and bits ask for.
pub fn build_rules(entries: u64, bits: u64, probes: u64) -> bool
    ensures { result ≡ filter_rules entries bits probes (field_size entries bits) }
{
    if MOST_FILTER < entries {
        return false;
    }
    if MOST_FILTER < bits {
        return false;
    }
    filter_rules(entries, bits, probes, bits_capacity(entries, bits))
}
