// What a message says, put into the session's lists: copies, and no test.
ghost use Rattle.std.specs.Prelude.{◌≡◌};
ghost use Rattle.std.proofs.lemmas.List.Edits.{sets};
ghost use Rattle.bloom.specs.Have.{haves_of};
ghost use Rattle.receive_haves.specs.Internal.HavesLaid.{LaidPut};
ghost use Rattle.rules.specs.Hash.{hashes_at, hashes_bytes};
ghost use Rattle.session_state.specs.Value.{kept_haves};
ghost use Rattle.receive_decide.specs.Internal.ReceivedCounts.{LaidFit, HeardFits};

use crate::decide::ReceivedCounts;
use bloom::have::HAVE_WORDS;
use hash_order::hashes::put_hashes;
use receive_haves::haves::lay_haves;

// Lays out `count` haves of a message, whose records are lent.
fn put_laid(message: &[u8], words: &[u64], count: usize, haves: &mut [u64], have_bytes: &mut [u8])
    requires { LaidFit message.now words.now count haves.old have_bytes.old }
    ensures { LaidPut (haves_of message.now (kept_haves words.now count)) haves.old have_bytes.old
        haves.new have_bytes.new }
{
    lay_haves(message, &words[..HAVE_WORDS * count], haves, have_bytes);
}

// Puts what the message says: its heads, as those sent last too where they were told, its need, and its haves, whose records are lent.
pub fn put_heard(
    d: ReceivedCounts,
    message: &[u8],
    at_heads: usize,
    at_need: usize,
    words: &[u64],
    last_sent: &mut [u8],
    their_heads: &mut [u8],
    their_need: &mut [u8],
    haves: &mut [u64],
    have_bytes: &mut [u8],
)
    requires { HeardFits d message.now at_heads at_need words.now last_sent.old their_heads.old their_need.old haves.old have_bytes.old }
    ensures { (last_sent.new ≡ sets last_sent.old 0
        (hashes_bytes (hashes_at message.now at_heads d.last_sent_from_message)))
        × (their_heads.new ≡ sets their_heads.old 0 (hashes_bytes (hashes_at message.now at_heads d.heads)))
        × (their_need.new ≡ sets their_need.old 0 (hashes_bytes (hashes_at message.now at_need d.need)))
        × LaidPut (haves_of message.now (kept_haves words.now d.haves)) haves.old have_bytes.old
        haves.new have_bytes.new }
{
    put_hashes(message, at_heads, d.last_sent_from_message, last_sent);
    put_hashes(message, at_heads, d.heads, their_heads);
    put_hashes(message, at_need, d.need, their_need);
    put_laid(message, words, d.haves, haves, have_bytes);
}
