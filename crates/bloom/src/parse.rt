// A filter read.
ghost use Rattle.std.specs.Prelude.{◌≡◌, ◌≤◌};
ghost use Rattle.bloom.specs.FilterIgnored.{counted_at};
ghost use Rattle.bloom.specs.FilterRead.{filter_at, numbers_at, field_at};
ghost use Rattle.leb128.specs.Number.{most_filter};

use crate::have::FilterNumbers;
use crate::rule::bits_capacity;
use leb128::leb128::leb128_u32;
use rules::refusal::Refusal;
use rules::sizes::{FIELD_SIZE, PROBES};
use wire::parse::left;

// 1% of false yeses; what a filter of no bytes has, and what filters are built with.
pub const BITS_PER_ENTRY: u64 = 10;

pub const NUM_PROBES: u64 = 7;

// The field behind the numbers of the filter at `at`: the filter as numbers, and the place where it ends.
fn parse_field(
    bytes: &[u8],
    at: usize,
    end: usize,
    entries: u64,
    bits: u64,
    probes: u64,
    place: usize,
) -> Result<(FilterNumbers, usize), Refusal>
    requires { (entries ≤ most_filter) × (bits ≤ most_filter) }
    ensures { result ≡ field_at bytes.now at end entries bits probes place }
{
    if entries == 0 {
        return Ok((
            FilterNumbers {
                entries: 0,
                bits,
                probes,
                place,
                size: 0,
            },
            place,
        ));
    }
    if bits == 0 {
        return Err(Refusal::NoBits(at));
    }
    if (PROBES as u64) < probes {
        return Err(Refusal::PastSize(at));
    }
    let size = bits_capacity(entries, bits) as usize;
    if FIELD_SIZE < size {
        return Err(Refusal::PastSize(at));
    }
    if left(bytes, place, end) < size {
        return Err(Refusal::Cut(place));
    }
    let next = place + size;
    Ok((
        FilterNumbers {
            entries,
            bits,
            probes,
            place,
            size,
        },
        next,
    ))
}

// All three numbers are read before any of them is looked at.
fn parse_numbers(bytes: &[u8], at: usize, end: usize) -> Result<(FilterNumbers, usize), Refusal>
    ensures { result ≡ numbers_at bytes.now at end }
{
    let (entries, at_bits) = leb128_u32(bytes, at, end)?;
    let (bits, at_probes) = leb128_u32(bytes, at_bits, end)?;
    let (probes, place) = leb128_u32(bytes, at_probes, end)?;
    parse_field(bytes, at, end, entries, bits, probes, place)
}

// The filter at a place, in the part that goes up to `end`, and the place where it ends.
pub fn parse(bytes: &[u8], at: usize, end: usize) -> Result<(FilterNumbers, usize), Refusal>
    ensures { result ≡ filter_at bytes.now at end }
{
    if left(bytes, at, end) == 0 {
        return Ok((
            FilterNumbers {
                entries: 0,
                bits: BITS_PER_ENTRY,
                probes: NUM_PROBES,
                place: at,
                size: 0,
            },
            at,
        ));
    }
    parse_numbers(bytes, at, end)
}

// The filter at a place, the place where it ends, and how many bytes of its part are ignored: those behind its field.
pub fn parse_counted(
    bytes: &[u8],
    at: usize,
    end: usize,
) -> Result<(FilterNumbers, usize, usize), Refusal>
    ensures { result ≡ counted_at bytes.now at end }
{
    let (filter, next) = parse(bytes, at, end)?;
    let ignored = left(bytes, next, end);
    Ok((filter, next, ignored))
}
