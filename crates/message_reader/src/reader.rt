// A message and a place in it.
ghost use Rattle.std.specs.Prelude.{◌≡◌, length};
ghost use Rattle.wire.specs.Item.{hash_list_at};

use rules::refusal::Refusal;
use wire::parse::{Run, length_prefixed_hashes};

#[derive(Clone, Copy)]
pub struct Reader<'a> {
    pub message: &'a [u8],
    pub at: usize,
}

// The work, on a slice and a place: the hash list there, which may go up to the slice's end.
pub fn hashes_at(message: &[u8], at: usize) -> Result<(Run, usize), Refusal>
    ensures { result ≡ hash_list_at message.now at (length message.now) }
{
    length_prefixed_hashes(message, at, message.len())
}

// A reader at a message's first byte.
pub fn new<'a>(message: &'a [u8]) -> Reader<'a>
    ensures { (result.message ≡ message.entry) × (result.at ≡ 0) }
{
    Reader { message, at: 0 }
}

// The reader at another place of its message.
pub fn moved<'a>(reader: Reader<'a>, at: usize) -> Reader<'a>
    ensures { (result.message ≡ reader.entry.message) × (result.at ≡ at) }
{
    Reader {
        message: reader.message,
        at,
    }
}

// The hash list that the reader has reached.
pub fn hashes<'a>(reader: Reader<'a>) -> Result<(Run, usize), Refusal>
    ensures { result ≡ hash_list_at reader.entry.message.now reader.entry.at (length reader.entry.message.now) }
{
    hashes_at(reader.message, reader.at)
}
