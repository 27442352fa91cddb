// The exported calls of the crate `wire_calls`.
ghost use Rattle.std.specs.Prelude.{◌≡◌};
ghost use Rattle.rules.specs.Output.{Output};
ghost use Rattle.call_words.specs.Answer.{Answered};
ghost use Rattle.wire_calls.specs.WireWords.{number_words, prefixed_words, hash_list_words};
ghost use Rattle.wire.specs.Item.{prefixed_at, hash_list_at, prefixed_bytes, hash_list_output};
ghost use Rattle.leb128.specs.Number.{number_at, most64, most_filter, shortest};
ghost use Rattle.rules.specs.Sizes.{sizes, limits_of};

#[unsafe(no_mangle)]
pub extern "C" fn bt_read_number(bytes: &[u8], at: usize, end: usize, answer: &mut [u64; 4])
    ensures { answer.new ≡ number_words (number_at most64 bytes.now at end) }
{
    wire_calls::calls::bt_read_number(bytes, at, end, answer)
}

#[unsafe(no_mangle)]
pub extern "C" fn bt_read_filter_number(bytes: &[u8], at: usize, end: usize, answer: &mut [u64; 4])
    ensures { answer.new ≡ number_words (number_at most_filter bytes.now at end) }
{
    wire_calls::calls::bt_read_filter_number(bytes, at, end, answer)
}

#[unsafe(no_mangle)]
pub extern "C" fn bt_read_prefixed(bytes: &[u8], at: usize, end: usize, answer: &mut [u64; 4])
    ensures { answer.new ≡ prefixed_words (prefixed_at bytes.now at end) }
{
    wire_calls::calls::bt_read_prefixed(bytes, at, end, answer)
}

#[unsafe(no_mangle)]
pub extern "C" fn bt_read_hashes(bytes: &[u8], at: usize, end: usize, answer: &mut [u64; 4])
    ensures { answer.new ≡ hash_list_words (hash_list_at bytes.now at end) }
{
    wire_calls::calls::bt_read_hashes(bytes, at, end, answer)
}

#[unsafe(no_mangle)]
pub extern "C" fn bt_write_number(n: u64, out: &mut [u8], answer: &mut [u64; 4])
    ensures { Answered (Output.bytes (shortest n)) out.old out.new answer.new }
{
    wire_calls::calls::bt_write_number(n, out, answer)
}

#[unsafe(no_mangle)]
pub extern "C" fn bt_write_prefixed(bytes: &[u8], out: &mut [u8], answer: &mut [u64; 4])
    ensures { Answered (Output.bytes (prefixed_bytes bytes.now)) out.old out.new answer.new }
{
    wire_calls::calls::bt_write_prefixed(bytes, out, answer)
}

#[unsafe(no_mangle)]
pub extern "C" fn bt_write_hashes(hashes: &[u8], out: &mut [u8], answer: &mut [u64; 4])
    ensures { Answered (hash_list_output hashes.now) out.old out.new answer.new }
{
    wire_calls::calls::bt_write_hashes(hashes, out, answer)
}

#[unsafe(no_mangle)]
pub extern "C" fn bt_limits(limits: &mut [u64; 12])
    ensures { limits.new ≡ limits_of sizes }
{
    wire_calls::limits::bt_limits(limits)
}
