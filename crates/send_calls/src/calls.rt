// Calls of the crate `send`.
ghost use Rattle.send.specs.ToSend.{to_send_output};
ghost use Rattle.call_words.specs.Answer.{Answered};

use call_words::answer::write_words;

// Writes the hashes of the changes to send to a peer at the start of `out`, 32 bytes each. `table` is the change table and `index` its index; the
// peer asks for the hashes in `need` and has the haves in `haves`, records of seven words over `bytes`. S is every row that, by the haves, the
// peer lacks: needs that are held and aren't in S come first, in their order, then S in table order. Answer: 0, the bytes written.
#[unsafe(no_mangle)]
pub extern "C" fn bt_hashes_to_send(
    table: &[u8],
    index: &[u8],
    bytes: &[u8],
    haves: &[u64],
    need: &[u8],
    out: &mut [u8],
    answer: &mut [u64; 4],
)
    ensures { Answered (to_send_output table.now index.now bytes.now haves.now need.now)
        out.old out.new answer.new }
{
    *answer = write_words(send::to_send::get_hashes_to_send(table, index, bytes, haves, need, out));
}
