// Set bits of a field, a word at a time.
ghost use Rattle.std.specs.Prelude.{◌≡◌, ◌+◌, ◌≤◌, ◌<◌, length};
ghost use Rattle.std.specs.Int.Count.{ones};
ghost use Rattle.std.proofs.Math.Seq.{slice};
ghost use Rattle.counts.specs.Captures.{bits_set};
ghost use Rattle.hash_order.specs.Internal.Word.{word_size};
ghost use Rattle.rules.specs.Hash.{big_endian};
ghost use Rattle.rules.specs.Sizes.{sizes};

use hash_order::word::{WORD_SIZE, word_at};

// The bytes from a place on, fewer than a word has, as a word that is filled with zeros.
fn rest_at(field: &[u8], at: usize) -> u64
    requires { (at ≤ length field.now) × (length field.now < at + word_size) }
    ensures { result ≡ big_endian (slice at (length field.now) field.now) }
{
    let mut word: u64 = 0;
    for byte in &field[at..] {
        word = word * 256 + *byte as u64;
    }
    word
}

// How many bits of a word are set: one instruction, where the processor that is compiled for has it.
fn ones_in(word: u64) -> u64
    ensures { (result ≡ ones word) × (result ≤ 64) }
{
    u64::count_ones(word) as u64
}

// How many bits of a field are set.
pub fn set_bits(field: &[u8]) -> u64
    requires { length field.now ≤ sizes.field }
    ensures { result ≡ bits_set field.now }
{
    let words = field.len() / WORD_SIZE;
    let mut set: u64 = 0;
    for i in 0..words {
        set += ones_in(word_at(field, i * WORD_SIZE));
    }
    set + ones_in(rest_at(field, words * WORD_SIZE))
}
