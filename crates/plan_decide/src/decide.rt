// What is decided once everything is counted: nothing is written before all of it is known.
ghost use Rattle.std.specs.Prelude.{cond, ◌&&◌, ◌≡◌, ◌+◌, ◌*◌, ◌≤◌, Ok, Err};
ghost use Rattle.std.specs.Int.Bits.{bit_or};
ghost use Rattle.message.specs.Flags.{flags_of};
ghost use Rattle.leb128.specs.Number.{most_filter};
ghost use Rattle.session.specs.PlanCall.{message_room, session_room};
ghost use Rattle.session.specs.Rooms.{if_room};
ghost use Rattle.session.specs.declared.plan_answer.PlanAnswer.TheVariants.{Reset};
ghost use Rattle.rules.specs.Sizes.{sizes};
ghost use Rattle.session.specs.Plan.{flags_for, version_for};
ghost use Rattle.plan_decide.specs.Internal.Draft.{SmallStated, SmallDraft, heads_count, count_if, filter_if, drafted, reset_stated, planned_counts, says_with, unless_breaks, decided};

use bloom::have::FilterNumbers;
use bloom::parse::{BITS_PER_ENTRY, NUM_PROBES};
use bloom::rule::bits_capacity;
use message::flags::MessageFlags;
use message::version::MessageVersion;
use plan_parts::body::BodyCount;
use rules::refusal::Refusal;
use rules::sizes::{HASH_SIZE, HASHES, SENT_HASHES};
use session::plan_answer::{PlanAnswer, Rooms, Stated};
use session_state::session::Session;

// The numbers of a plan: how many heads there are and hashes are asked for, whether the peer's first have is unknown, whether a have is given and the
// entries of its filter, the body, how a pick of it was found, whether there is nothing to say, and how many hashes are sent then.
#[derive(Clone, Copy)]
pub struct Draft {
    pub heads: usize,
    pub need: usize,
    pub unknown: bool,
    pub gives: bool,
    pub entries: usize,
    pub body: BodyCount,
    pub picked: Result<(), usize>,
    pub silent: bool,
    pub sent: usize,
}

// Whether the message's lists have room, in wire order; else the length that the first too short one wants.
fn message_room(p: Stated, r: Rooms) -> Result<(), usize>
    requires { SmallStated p }
    ensures { result ≡ message_room p r }
{
    let heads = HASH_SIZE * p.heads;
    if r.heads < heads {
        return Err(heads);
    }
    let need = HASH_SIZE * p.need;
    if r.need < need {
        return Err(need);
    }
    let filter = p.filter;
    let have = HASH_SIZE * p.syncs + filter.size;
    if r.have < have {
        return Err(have);
    }
    let list = HASH_SIZE * p.hashes;
    if r.list < list {
        return Err(list);
    }
    Ok(())
}

// Whether the session's lists that change have room; else the length that the first too short one wants.
fn session_room(last_sent: usize, sent: usize, r: Rooms) -> Result<(), usize>
    requires { (last_sent ≤ sizes.rows) × (sent ≤ sizes.sent_hashes + sizes.rows) }
    ensures { result ≡ session_room last_sent sent r }
{
    let heads = HASH_SIZE * last_sent;
    if r.last_sent < heads {
        return Err(heads);
    }
    let hashes = HASH_SIZE * sent;
    if r.sent < hashes {
        return Err(hashes);
    }
    Ok(())
}

// Flags with one more where a test says so.
fn with_flag(flags: MessageFlags, on: bool, flag: u8) -> MessageFlags
    ensures { result ≡ cond on (flags_of (bit_or flags.0 flag)) flags }
{
    if on {
        return flags.set(flag);
    }
    flags
}

// The flags that a message says.
fn flags_for(read_only: bool, tells_reset: bool) -> MessageFlags
    ensures { result ≡ flags_for read_only tells_reset }
{
    let understands = MessageFlags::new().set(MessageFlags::SUPPORTS_SYNC_RESET);
    let flags = with_flag(understands, read_only, MessageFlags::READ_ONLY);
    with_flag(flags, tells_reset, MessageFlags::SYNC_RESET)
}

// Whether the peer is told to forget what it sent: where that is due and it understands it.
fn tells_reset(needs_reset: bool, supports_reset: bool) -> bool
    ensures { result ≡ (needs_reset && supports_reset) }
{
    if !needs_reset {
        return false;
    }
    supports_reset
}

// The count where there are some, else 0.
fn count_if(some: bool, count: usize) -> usize
    ensures { result ≡ count_if some count }
{
    if some {
        return count;
    }
    0
}

// The version of a message to a peer that knows V2 or doesn't.
fn version_for(v2: bool) -> MessageVersion
    ensures { result ≡ version_for v2 }
{
    if v2 {
        return MessageVersion::V2;
    }
    MessageVersion::V1
}

// How many heads a message has: none where the peer is to think that all was lost here.
fn heads_for(needs_reset: bool, supports_reset: bool, heads: usize) -> usize
    ensures { result ≡ heads_count needs_reset supports_reset heads }
{
    if !needs_reset {
        return heads;
    }
    if supports_reset {
        return heads;
    }
    0
}

// The numbers of the filter that is given behind `syncs` last-sync hashes, or zeros.
fn filter_for(gives: bool, syncs: usize, entries: usize, bits: u64, probes: u64) -> FilterNumbers
    requires { (syncs ≤ sizes.hashes) × (entries ≤ sizes.rows) × (bits ≤ most_filter) }
    ensures { result ≡ filter_if gives syncs entries bits probes }
{
    if !gives {
        return FilterNumbers {
            entries: 0,
            bits: 0,
            probes: 0,
            place: 0,
            size: 0,
        };
    }
    FilterNumbers {
        entries: entries as u64,
        bits,
        probes,
        place: HASH_SIZE * syncs,
        size: bits_capacity(entries as u64, bits) as usize,
    }
}

// The message of a draft.
fn stated(session: Session, d: Draft, bits: u64, probes: u64) -> Stated
    requires { SmallDraft session d bits }
    ensures { result ≡ drafted session d bits probes }
{
    let needs_reset = session.needs_reset;
    let supports_reset = session.supports_reset;
    let shared = session.shared_heads;
    let gives = d.gives;
    let body = d.body;
    Stated {
        version: version_for(session.supports_v2),
        flags: flags_for(session.read_only, tells_reset(needs_reset, supports_reset)),
        document: body.document,
        heads: heads_for(needs_reset, supports_reset, d.heads),
        need: d.need,
        haves: count_if(gives, 1),
        syncs: count_if(gives, shared),
        filter: filter_for(gives, shared, d.entries, bits, probes),
        hashes: body.hashes,
    }
}

// The reset message, which has a have that claims nothing.
fn reset_stated(heads: usize) -> Stated
    ensures { result ≡ reset_stated heads }
{
    Stated {
        version: MessageVersion::V1,
        flags: MessageFlags::new().set(MessageFlags::SUPPORTS_SYNC_RESET),
        document: false,
        heads,
        need: 0,
        haves: 1,
        syncs: 0,
        filter: FilterNumbers {
            entries: 0,
            bits: BITS_PER_ENTRY,
            probes: NUM_PROBES,
            place: 0,
            size: 0,
        },
        hashes: 0,
    }
}

// The session after a message: `last_sent` heads were sent last, and `sent` hashes are sent.
fn planned_session(session: Session, last_sent: usize, sent: usize) -> Session
    ensures { result ≡ planned_counts session last_sent sent }
{
    let mut next = session;
    next.last_sent_heads = last_sent;
    next.sent_hashes = sent;
    next.in_flight = true;
    next.have_responded = true;
    next.needs_reset = false;
    next
}

// The reset, if there is room for it.
fn reset(heads: usize, r: Rooms) -> Result<PlanAnswer, Refusal>
    requires { heads ≤ sizes.rows }
    ensures { result ≡ if_room Err (message_room (reset_stated heads) r) (Ok (Reset (reset_stated heads))) }
{
    let p = reset_stated(heads);
    message_room(p, r).map_err(Refusal::NoRoom)?;
    Ok(PlanAnswer::Reset(p))
}

// The message, if there is room for it and for the session's lists.
fn says(session: Session, d: Draft, bits: u64, probes: u64, r: Rooms) -> Result<PlanAnswer, Refusal>
    requires { SmallDraft session d bits }
    ensures { result ≡ says_with session d bits probes r }
{
    let p = stated(session, d, bits, probes);
    message_room(p, r).map_err(Refusal::NoRoom)?;
    session_room(d.heads, d.sent, r).map_err(Refusal::NoRoom)?;
    Ok(PlanAnswer::Says {
        stated: p,
        session: planned_session(session, d.heads, d.sent),
    })
}

// The message, if a pick that goes is accepted.
fn says_picked(
    session: Session,
    d: Draft,
    bits: u64,
    probes: u64,
    r: Rooms,
) -> Result<PlanAnswer, Refusal>
    requires { SmallDraft session d bits }
    ensures { result ≡ unless_breaks d.picked (says_with session d bits probes r) }
{
    d.picked.map_err(Refusal::BadPick)?;
    says(session, d, bits, probes, r)
}

// Decides: 4 for too many needs even before a reset or silence, 4 for too many sent hashes and then 17 only where something is said.
pub fn decide(
    session: Session,
    d: Draft,
    bits: u64,
    probes: u64,
    r: Rooms,
) -> Result<PlanAnswer, Refusal>
    requires { SmallDraft session d bits }
    ensures { result ≡ decided session d bits probes r }
{
    if HASHES < d.need {
        return Err(Refusal::PastSize(0));
    }
    if d.unknown {
        return reset(d.heads, r);
    }
    if d.silent {
        return Ok(PlanAnswer::Silent);
    }
    if SENT_HASHES < d.sent {
        return Err(Refusal::PastSize(0));
    }
    says_picked(session, d, bits, probes, r)
}
