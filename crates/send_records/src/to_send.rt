// The hashes to send, for haves that are lent as records.
ghost use Rattle.std.specs.Prelude.{◌≡◌, min};
ghost use Rattle.rules.specs.Output.{Written};
ghost use Rattle.send.specs.ToSend.{to_send_output};
ghost use Rattle.send_records.specs.Internal.RecordsLaid.{laid_haves, used_words};
ghost use Rattle.send_records.specs.Summary.{summary_words};

use crate::laid::{LAID_HAVES, Laid, lay};
use crate::summary::HaveSummary;
use bloom::have::HAVE_WORDS;
use rules::refusal::Refusal;
use send::to_send::get_hashes_to_send;

fn at_most(count: usize) -> usize
    ensures { result ≡ min count laid_haves }
{
    if count < LAID_HAVES {
        count
    } else {
        LAID_HAVES
    }
}

// The selection on words, for haves that were laid.
fn laid_to_send<'a>(
    table: &'a [u8],
    index: &'a [u8],
    bytes: &'a [u8],
    laid: Laid,
    need: &'a [u8],
    out: &'a mut [u8],
) -> Result<usize, Refusal>
    ensures { Written (to_send_output table.now index.now bytes.now (used_words laid) need.now)
        out.old out.new result }
{
    let count = at_most(laid.count);
    let words = laid.words;
    get_hashes_to_send(table, index, bytes, &words[..HAVE_WORDS * count], need, out)
}

// The hashes to send for haves that are records over the bytes, and a need list that is lent as the bytes of its hashes.
pub fn summaries_to_send<'a>(
    table: &'a [u8],
    index: &'a [u8],
    bytes: &'a [u8],
    haves: &'a [HaveSummary],
    need: &'a [u8],
    out: &'a mut [u8],
) -> Result<usize, Refusal>
    ensures { Written (to_send_output table.now index.now bytes.now (summary_words haves.now) need.now)
        out.old out.new result }
{
    let laid = lay(haves);
    laid_to_send(table, index, bytes, laid, need, out)
}
