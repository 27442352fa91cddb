// The exported calls of the crate `send_calls`.
ghost use Rattle.send.specs.ToSend.{to_send_output};
ghost use Rattle.call_words.specs.Answer.{Answered};

#[unsafe(no_mangle)]
pub extern "C" fn bt_hashes_to_send(
    table: &[u8],
    index: &[u8],
    bytes: &[u8],
    haves: &[u64],
    need: &[u8],
    out: &mut [u8],
    answer: &mut [u64; 4],
)
    ensures { Answered (to_send_output table.now index.now bytes.now haves.now need.now)
        out.old out.new answer.new }
{
    send_calls::calls::bt_hashes_to_send(table, index, bytes, haves, need, out, answer)
}
