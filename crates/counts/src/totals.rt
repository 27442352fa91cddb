// Counts, and totals of them.
ghost use Rattle.std.specs.Prelude.{◌≡◌, ◌+◌, ltb};
ghost use Rattle.counts.specs.Totals.{most_total, passes, sum, added_to};

use rules::refusal::Refusal;

// What a capture counts: entries of the filter, bits of its field, bits that are set, rows tested, and those of them that it contains.
#[derive(Clone, Copy)]
pub struct Counts {
    pub entries: u64,
    pub field_bits: u64,
    pub set_bits: u64,
    pub tested: u64,
    pub contained: u64,
}

// The most that a total may be.
const MOST_TOTAL: u64 = 18_446_744_073_709_551_615;

// Whether a total and a count would come to more than 64 bits hold.
fn total_passes(total: u64, count: u64) -> bool
    ensures { result ≡ ltb most_total (total + count) }
{
    MOST_TOTAL - total < count
}

// Whether one of the totals would pass.
fn sum_passes(totals: Counts, counts: Counts) -> bool
    ensures { result ≡ passes (sum totals counts) }
{
    if total_passes(totals.entries, counts.entries) {
        return true;
    }
    if total_passes(totals.field_bits, counts.field_bits) {
        return true;
    }
    if total_passes(totals.set_bits, counts.set_bits) {
        return true;
    }
    if total_passes(totals.tested, counts.tested) {
        return true;
    }
    total_passes(totals.contained, counts.contained)
}

// Totals with a capture's counts added.
pub fn add_counts(totals: Counts, counts: Counts) -> Result<Counts, Refusal>
    ensures { result ≡ added_to totals counts }
{
    if sum_passes(totals, counts) {
        return Err(Refusal::PastTotal);
    }
    Ok(Counts {
        entries: totals.entries + counts.entries,
        field_bits: totals.field_bits + counts.field_bits,
        set_bits: totals.set_bits + counts.set_bits,
        tested: totals.tested + counts.tested,
        contained: totals.contained + counts.contained,
    })
}
