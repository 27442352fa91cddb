// Saved states, read and written.
ghost use Rattle.std.specs.Prelude.{◌≡◌};
ghost use Rattle.rules.specs.Output.{Written};
ghost use Rattle.session_saved.specs.Saved.{state_output, state_at, Restored};

use leb128::leb128::{put_unsigned, unsigned_size};
use rules::put::copy_into;
use rules::refusal::Refusal;
use rules::sizes::HASH_SIZE;
use session_check::list::list_good;
use session_state::session::Session;
use wire::parse::{Run, length_prefixed_hashes};

// The first byte of a saved state.
pub const SYNC_STATE_TYPE: u8 = 67;

// Writes a saved state from the shared heads: 10 where their count is no list's.
pub fn encode(out: &mut [u8], shared: &[u8], count: usize) -> Result<usize, Refusal>
    ensures { Written (state_output shared.now count) out.old out.new result }
{
    if !list_good(shared, count) {
        return Err(Refusal::BadNumbers);
    }
    let size = 1 + unsigned_size(count as u64) + HASH_SIZE * count;
    if out.len() < size {
        return Err(Refusal::NoRoom(size));
    }
    out[0] = SYNC_STATE_TYPE;
    let at = put_unsigned(out, 1, count as u64);
    copy_into(out, at, &shared[..HASH_SIZE * count]);
    Ok(size)
}

// Where the shared heads of a saved state stand, and the place where they end.
pub fn parse(bytes: &[u8]) -> Result<(Run, usize), Refusal>
    ensures { result ≡ state_at bytes.now }
{
    if bytes.len() == 0 {
        return Err(Refusal::Cut(0));
    }
    let record_type = bytes[0];
    if record_type != SYNC_STATE_TYPE {
        return Err(Refusal::WrongType(record_type));
    }
    length_prefixed_hashes(bytes, 1, bytes.len())
}

// Reads a saved state: a fresh session with the shared heads, which are copied to the start of the buffer that is lent for them.
pub fn decode(bytes: &[u8], shared: &mut [u8]) -> Result<Session, Refusal>
    ensures { Restored bytes.now shared.old shared.new result }
{
    let (heads, next) = parse(bytes)?;
    let wanted = HASH_SIZE * heads.count;
    if shared.len() < wanted {
        return Err(Refusal::NoRoom(wanted));
    }
    copy_into(shared, 0, &bytes[heads.start..next]);
    // It has a name, so that the edit read_state_none can answer something else in its place.
    let session = Session::restored(heads.count);
    Ok(session)
}
