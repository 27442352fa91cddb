// One record: what the proved library answers to its input, held to the stored answer.
ghost use Rattle.std.specs.Prelude.{◌≡◌, ◌≤◌, length};
ghost use Rattle.sample_replay.specs.Record.{agreeing, answer_words, record_at};

use crate::kind::Kind;
use crate::little_endian::words_at;
use leb128::leb128::{leb128_u32, leb128_u64};
use rules::little_endian::u16_at;
use wire::parse::{length_prefixed_bytes, length_prefixed_hashes};
use wire_calls::answer::{hash_list_words, number_words, prefixed_words};

// The place of the size within a record, whose first byte is its kind.
const SIZE_PLACE: usize = 1;
// The place of the stored answer.
const ANSWER_PLACE: usize = 3;
// The place of the input.
const INPUT_PLACE: usize = 35;

// A record that was read: its kind, whether the library's answer is the stored one, and the place after the record.
#[derive(Clone, Copy, Debug, PartialEq, Eq)]
pub struct Record {
    pub kind: Kind,
    pub same: bool,
    pub next: usize,
}

// Whether two answers agree. Of a refusal only the number is compared: the original tells no places.
fn agreeing(stored: [u64; 4], found: [u64; 4]) -> bool
    ensures { result ≡ agreeing stored found }
{
    if stored[0] == 0 {
        stored == found
    } else {
        stored[0] == found[0]
    }
}

// What the library answers to an input, as words. Each kind has its call here and nowhere else.
fn answer_words(kind: Kind, input: &[u8]) -> [u64; 4]
    ensures { result ≡ answer_words kind input.now }
{
    let end = input.len();
    match kind {
        Kind::Number => number_words(leb128_u64(input, 0, end)),
        Kind::FilterNumber => number_words(leb128_u32(input, 0, end)),
        Kind::PrefixedString => prefixed_words(length_prefixed_bytes(input, 0, end)),
        Kind::HashList => hash_list_words(length_prefixed_hashes(input, 0, end)),
    }
}

// The record at a place; none where the bytes end inside it, or its kind is unknown.
pub fn record_at(bytes: &[u8], at: usize) -> Option<Record>
    requires { at ≤ length bytes.now }
    ensures { result ≡ record_at bytes.now at }
{
    if bytes.len() - at < INPUT_PLACE {
        return None;
    }
    let kind = Kind::try_from(bytes[at]).ok()?;
    let start = at + INPUT_PLACE;
    let next = start + u16_at(bytes, at + SIZE_PLACE);
    let input = bytes.get(start..next)?;
    let stored = words_at(bytes, at + ANSWER_PLACE);
    let same = agreeing(stored, answer_words(kind, input));
    Some(Record { kind, same, next })
}
