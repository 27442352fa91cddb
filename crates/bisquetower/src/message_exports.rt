// The exported calls of the crate `message_calls`.
ghost use Rattle.message.specs.Write.{parts_of, message_output};
ghost use Rattle.call_words.specs.Answer.{Answered};
ghost use Rattle.message_calls.specs.MessageWords.{version_of, section_of, MessageAnswered, PeekAnswered};

#[unsafe(no_mangle)]
pub extern "C" fn bt_read_message(
    bytes: &[u8],
    haves: &mut [u64],
    chunks: &mut [u64],
    ignored: &mut [u64; 16],
    answer: &mut [u64; 14],
)
    ensures { MessageAnswered bytes.now haves.old haves.new chunks.old chunks.new
        ignored.old ignored.new answer.new }
{
    message_calls::calls::bt_read_message(bytes, haves, chunks, ignored, answer)
}

#[unsafe(no_mangle)]
pub extern "C" fn bt_peek_heads(bytes: &[u8], out: &mut [u8], answer: &mut [u64; 4])
    ensures { PeekAnswered bytes.now out.old out.new answer.new }
{
    message_calls::calls::bt_peek_heads(bytes, out, answer)
}

#[unsafe(no_mangle)]
pub extern "C" fn bt_write_message(
    version: u64,
    heads: &[u8],
    need: &[u8],
    bytes: &[u8],
    haves: &[u64],
    chunks: &[u8],
    lengths: &[u64],
    flags: u64,
    out: &mut [u8],
    answer: &mut [u64; 4],
)
    ensures { Answered (message_output (parts_of (version_of version) heads.now need.now bytes.now haves.now
        chunks.now lengths.now (section_of flags))) out.old out.new answer.new }
{
    message_calls::calls::bt_write_message(
        version, heads, need, bytes, haves, chunks, lengths, flags, out, answer,
    )
}
