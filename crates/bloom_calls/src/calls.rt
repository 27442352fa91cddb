// Calls of the crates `bloom` and `bloom_probe`.
ghost use Rattle.std.specs.Prelude.{◌≡◌};
ghost use Rattle.bloom_probe.specs.Build.{build_output};
ghost use Rattle.bloom.specs.Filter.{filter_output, filter_of4};
ghost use Rattle.bloom.specs.FilterIgnored.{counted_at};
ghost use Rattle.bloom_probe.specs.Contains.{contained_in};
ghost use Rattle.call_words.specs.Answer.{Answered};
ghost use Rattle.bloom_calls.specs.BloomWords.{filter_words, contained_words};

use crate::answer::{contained_words, filter_words};
use call_words::answer::write_words;

// Reads the filter that starts at place `at` of `bytes` and ends before place `end`. Answer: 0, entries, bits per entry, probes, the place of the
// field, its length, the place behind what was read, the bytes ignored behind the field.
#[unsafe(no_mangle)]
pub extern "C" fn bt_read_filter(bytes: &[u8], at: usize, end: usize, answer: &mut [u64; 8])
    ensures { answer.new ≡ filter_words (counted_at bytes.now at end) }
{
    *answer = filter_words(bloom::parse::parse_counted(bytes, at, end));
}

// Writes a filter of these entries, bits per entry and probes over `field` at the start of `out`; one without entries is no bytes. Answer: 0, the
// bytes written.
#[unsafe(no_mangle)]
pub extern "C" fn bt_write_filter(
    entries: u64,
    bits: u64,
    probes: u64,
    field: &[u8],
    out: &mut [u8],
    answer: &mut [u64; 4],
)
    ensures { Answered (filter_output (filter_of4 entries bits probes field.now)) out.old out.new answer.new }
{
    *answer = write_words(bloom::to_bytes::to_bytes(out, entries, bits, probes, field));
}

// Builds the field of a filter with these bits per entry and probes over the hashes in `hashes`, 32 bytes each, at the start of `field`. Answer: 0,
// the field's length.
#[unsafe(no_mangle)]
pub extern "C" fn bt_build_filter(
    bits: u64,
    probes: u64,
    hashes: &[u8],
    field: &mut [u8],
    answer: &mut [u64; 4],
)
    ensures { Answered (build_output bits probes hashes.now) field.old field.new answer.new }
{
    *answer = write_words(bloom_probe::build::from_hashes(field, bits, probes, hashes));
}

// Asks whether the filter of some have contains the hash in `hash`, 32 bytes. The haves are records of seven words in `haves` over `bytes`.
// Answer: 0, then 1 for yes or 0 for no.
#[unsafe(no_mangle)]
pub extern "C" fn bt_filters_contain(
    bytes: &[u8],
    haves: &[u64],
    hash: &[u8],
    answer: &mut [u64; 4],
)
    ensures { answer.new ≡ contained_words (contained_in bytes.now haves.now hash.now) }
{
    *answer = contained_words(bloom_probe::contains::filters_contain(bytes, haves, hash));
}
