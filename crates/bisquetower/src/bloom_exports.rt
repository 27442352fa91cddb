// The exported calls of the crate `bloom_calls`.
ghost use Rattle.std.specs.Prelude.{◌≡◌};
ghost use Rattle.bloom_probe.specs.Build.{build_output};
ghost use Rattle.bloom.specs.Filter.{filter_output, filter_of4};
ghost use Rattle.bloom.specs.FilterIgnored.{counted_at};
ghost use Rattle.bloom_probe.specs.Contains.{contained_in};
ghost use Rattle.call_words.specs.Answer.{Answered};
ghost use Rattle.bloom_calls.specs.BloomWords.{filter_words, contained_words};

#[unsafe(no_mangle)]
pub extern "C" fn bt_read_filter(bytes: &[u8], at: usize, end: usize, answer: &mut [u64; 8])
    ensures { answer.new ≡ filter_words (counted_at bytes.now at end) }
{
    bloom_calls::calls::bt_read_filter(bytes, at, end, answer)
}

#[unsafe(no_mangle)]
pub extern "C" fn bt_write_filter(
    entries: u64,
    bits: u64,
    probes: u64,
    field: &[u8],
    out: &mut [u8],
    answer: &mut [u64; 4],
)
    ensures { Answered (filter_output (filter_of4 entries bits probes field.now)) out.old out.new answer.new }
{
    bloom_calls::calls::bt_write_filter(entries, bits, probes, field, out, answer)
}

#[unsafe(no_mangle)]
pub extern "C" fn bt_build_filter(
    bits: u64,
    probes: u64,
    hashes: &[u8],
    field: &mut [u8],
    answer: &mut [u64; 4],
)
    ensures { Answered (build_output bits probes hashes.now) field.old field.new answer.new }
{
    bloom_calls::calls::bt_build_filter(bits, probes, hashes, field, answer)
}

#[unsafe(no_mangle)]
pub extern "C" fn bt_filters_contain(
    bytes: &[u8],
    haves: &[u64],
    hash: &[u8],
    answer: &mut [u64; 4],
)
    ensures { answer.new ≡ contained_words (contained_in bytes.now haves.now hash.now) }
{
    bloom_calls::calls::bt_filters_contain(bytes, haves, hash, answer)
}
