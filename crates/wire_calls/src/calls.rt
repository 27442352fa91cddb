// Calls of the crate `wire`.
ghost use Rattle.std.specs.Prelude.{◌≡◌};
ghost use Rattle.rules.specs.Output.{Output};
ghost use Rattle.call_words.specs.Answer.{Answered};
ghost use Rattle.wire_calls.specs.WireWords.{number_words, prefixed_words, hash_list_words};
ghost use Rattle.wire.specs.Item.{prefixed_at, hash_list_at, prefixed_bytes, hash_list_output};
ghost use Rattle.leb128.specs.Number.{number_at, most64, most_filter, shortest};

use crate::answer::{hash_list_words, number_words, prefixed_words};
use call_words::answer::write_words;

// Reads the number that starts at place `at` of `bytes` and ends before place `end`: LEB128, shortest form, at most 64 bits. Answer: 0, its value,
// the place behind it.
#[unsafe(no_mangle)]
pub extern "C" fn bt_read_number(bytes: &[u8], at: usize, end: usize, answer: &mut [u64; 4])
    ensures { answer.new ≡ number_words (number_at most64 bytes.now at end) }
{
    *answer = number_words(leb128::leb128::leb128_u64(bytes, at, end));
}

// Reads a number of a filter, which is at most 4,294,967,295, at place `at` of `bytes`, before place `end`. Answer: 0, its value, the place behind
// it.
#[unsafe(no_mangle)]
pub extern "C" fn bt_read_filter_number(bytes: &[u8], at: usize, end: usize, answer: &mut [u64; 4])
    ensures { answer.new ≡ number_words (number_at most_filter bytes.now at end) }
{
    *answer = number_words(leb128::leb128::leb128_u32(bytes, at, end));
}

// Reads the string with its length before it that starts at place `at` of `bytes` and ends before place `end`. Answer: 0, the place of its first
// byte, the place behind its last.
#[unsafe(no_mangle)]
pub extern "C" fn bt_read_prefixed(bytes: &[u8], at: usize, end: usize, answer: &mut [u64; 4])
    ensures { answer.new ≡ prefixed_words (prefixed_at bytes.now at end) }
{
    *answer = prefixed_words(wire::parse::length_prefixed_bytes(bytes, at, end));
}

// Reads the hash list that starts at place `at` of `bytes` and ends before place `end`. Answer: 0, the place of its first hash, how many hashes it
// has, the place behind it.
#[unsafe(no_mangle)]
pub extern "C" fn bt_read_hashes(bytes: &[u8], at: usize, end: usize, answer: &mut [u64; 4])
    ensures { answer.new ≡ hash_list_words (hash_list_at bytes.now at end) }
{
    *answer = hash_list_words(wire::parse::length_prefixed_hashes(bytes, at, end));
}

// Writes the number `n` at the start of `out`, in LEB128's shortest form. Answer: 0, the bytes written.
#[unsafe(no_mangle)]
pub extern "C" fn bt_write_number(n: u64, out: &mut [u8], answer: &mut [u64; 4])
    ensures { Answered (Output.bytes (shortest n)) out.old out.new answer.new }
{
    *answer = write_words(leb128::leb128::write_unsigned(out, n));
}

// Writes the length of `bytes`, then `bytes`, at the start of `out`. Answer: 0, the bytes written.
#[unsafe(no_mangle)]
pub extern "C" fn bt_write_prefixed(bytes: &[u8], out: &mut [u8], answer: &mut [u64; 4])
    ensures { Answered (Output.bytes (prefixed_bytes bytes.now)) out.old out.new answer.new }
{
    *answer = write_words(wire::encode::encode_bytes(out, bytes));
}

// Writes a hash list at the start of `out`: the number of the hashes in `hashes`, which stand there 32 bytes each, then the hashes. Answer: 0, the
// bytes written.
#[unsafe(no_mangle)]
pub extern "C" fn bt_write_hashes(hashes: &[u8], out: &mut [u8], answer: &mut [u64; 4])
    ensures { Answered (hash_list_output hashes.now) out.old out.new answer.new }
{
    *answer = write_words(wire::encode::encode_hashes(out, hashes));
}
