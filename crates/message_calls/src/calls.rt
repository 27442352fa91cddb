// Calls of the crates `message_read`, `message_peek` and `message_write`.
ghost use Rattle.message.specs.Write.{parts_of, message_output};
ghost use Rattle.call_words.specs.Answer.{Answered};
ghost use Rattle.message_calls.specs.MessageWords.{version_of, section_of, MessageAnswered, PeekAnswered};

use crate::message_words::{decoded_words, peeked_words, section_of, version_of};
use call_words::answer::write_words;

// Reads the message in `bytes`. The seven words of each have go to the start of `haves`, the place and the length of each chunk to the start of
// `chunks`, and how many bytes are ignored behind the field of each have to the start of `ignored`. Answer: 0, the version, the place and the
// number of the heads, of the need, of the haves and of the chunks, the flags (256 where there is no section), the place behind the message, the
// bytes ignored behind the fields of all its filters, the bytes behind its flags section.
#[unsafe(no_mangle)]
pub extern "C" fn bt_read_message(
    bytes: &[u8],
    haves: &mut [u64],
    chunks: &mut [u64],
    ignored: &mut [u64; 16],
    answer: &mut [u64; 14],
)
    ensures { MessageAnswered bytes.now haves.old haves.new chunks.old chunks.new
        ignored.old ignored.new answer.new }
{
    *answer = decoded_words(message_read::decode::decode(bytes, haves, chunks, ignored));
}

// Reads the version and the heads of the message in `bytes` from its first part alone, and copies the heads to the start of `out`; what follows
// them isn't looked at. Answer: 0, the version, how many heads there are.
#[unsafe(no_mangle)]
pub extern "C" fn bt_peek_heads(bytes: &[u8], out: &mut [u8], answer: &mut [u64; 4])
    ensures { PeekAnswered bytes.now out.old out.new answer.new }
{
    *answer = peeked_words(message_peek::peek::peek_heads(bytes, out));
}

// Writes a message at the start of `out`: `version` 2 is version 2 and any other number version 1; the hashes in `heads` and in `need`, 32 bytes
// each; haves as records of seven words in `haves` over `bytes`; chunks that stand one after the other in `chunks`, with their lengths in
// `lengths`; `flags` below 256, or any other number for no section. Answer: 0, the bytes written.
#[unsafe(no_mangle)]
pub extern "C" fn bt_write_message(
    version: u64,
    heads: &[u8],
    need: &[u8],
    bytes: &[u8],
    haves: &[u64],
    chunks: &[u8],
    lengths: &[u64],
    flags: u64,
    out: &mut [u8],
    answer: &mut [u64; 4],
)
    ensures { Answered (message_output (parts_of (version_of version) heads.now need.now bytes.now haves.now
        chunks.now lengths.now (section_of flags))) out.old out.new answer.new }
{
    let v = version_of(version);
    let f = section_of(flags);
    *answer = write_words(message_write::encode::encode(
        out, v, heads, need, bytes, haves, chunks, lengths, f,
    ));
}
