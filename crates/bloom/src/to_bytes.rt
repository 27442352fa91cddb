// A filter written.
ghost use Rattle.std.specs.Prelude.{◌≡◌, ◌+◌, ◌≤◌, ◌<◌, length};
ghost use Rattle.bloom.specs.Filter.{filter_bytes, filter_output, filter_of4};
ghost use Rattle.rules.specs.Output.{Written};
ghost use Rattle.leb128.specs.Number.{Put};

use crate::rule::filter_rules;
use leb128::leb128::{put_unsigned, unsigned_size};
use rules::put::copy_into;
use rules::refusal::Refusal;

// How many bytes a filter has when it is written.
pub fn filter_size(entries: u64, bits: u64, probes: u64, field: &[u8]) -> usize
    ensures { result ≡ length (filter_bytes (filter_of4 entries bits probes field.now)) }
{
    if entries == 0 {
        return 0;
    }
    unsigned_size(entries) + unsigned_size(bits) + unsigned_size(probes) + field.len()
}

// Puts a filter at a place of the buffer, and returns the place after it.
pub fn put_filter(
    out: &mut [u8],
    at: usize,
    entries: u64,
    bits: u64,
    probes: u64,
    field: &[u8],
) -> usize
    requires { at + length (filter_bytes (filter_of4 entries bits probes field.now)) ≤ length out.old }
    ensures { Put out.old out.new at (filter_bytes (filter_of4 entries bits probes field.now)) result }
{
    if entries == 0 {
        return at;
    }
    let at_bits = put_unsigned(out, at, entries);
    let at_probes = put_unsigned(out, at_bits, bits);
    let at_field = put_unsigned(out, at_probes, probes);
    copy_into(out, at_field, field);
    at_field + field.len()
}

// Writes a filter: 10 where its numbers and field break the filter rules.
pub fn to_bytes(
    out: &mut [u8],
    entries: u64,
    bits: u64,
    probes: u64,
    field: &[u8],
) -> Result<usize, Refusal>
    ensures { Written (filter_output (filter_of4 entries bits probes field.now)) out.old out.new result }
{
    if !filter_rules(entries, bits, probes, field.len() as u64) {
        return Err(Refusal::BadNumbers);
    }
    let size = filter_size(entries, bits, probes, field);
    if out.len() < size {
        return Err(Refusal::NoRoom(size));
    }
    put_filter(out, 0, entries, bits, probes, field);
    Ok(size)
}
