// Answers of planning as words, and the session's words that they leave.
ghost use Rattle.std.specs.Prelude.{◌≡◌};
ghost use Rattle.plan_calls.specs.PlanWords.{version_number, stated_words, planned_words, planned_session};

use call_words::words::session_words;
use message::version::MessageVersion;
use rules::refusal::Refusal;
use session::plan_answer::{PlanAnswer, Stated};

fn version_number(version: MessageVersion) -> u64
    ensures { result ≡ version_number version }
{
    match version {
        MessageVersion::V1 => 1,
        MessageVersion::V2 => 2,
    }
}

// The words of what is stated: `what` is 1 for a reset and 2 for a message.
fn stated_words(what: u64, p: Stated) -> [u64; 16]
    ensures { result ≡ stated_words what p }
{
    let version = p.version;
    let flags = p.flags;
    let filter = p.filter;
    [
        0,
        what,
        version_number(version),
        flags.0 as u64,
        p.document as u64,
        p.heads as u64,
        p.need as u64,
        p.haves as u64,
        0,
        p.syncs as u64,
        filter.entries,
        filter.bits,
        filter.probes,
        filter.place as u64,
        filter.size as u64,
        p.hashes as u64,
    ]
}

pub fn planned_words(planned: Result<PlanAnswer, Refusal>) -> [u64; 16]
    ensures { result ≡ planned_words planned }
{
    match planned {
        Err(r) => [
            r.number(),
            r.value(),
            0,
            0,
            0,
            0,
            0,
            0,
            0,
            0,
            0,
            0,
            0,
            0,
            0,
            0,
        ],
        Ok(PlanAnswer::Silent) => [0, 0, 0, 0, 0, 0, 0, 0, 0, 0, 0, 0, 0, 0, 0, 0],
        Ok(PlanAnswer::Reset(stated)) => stated_words(1, stated),
        Ok(PlanAnswer::Says { stated, session: _ }) => stated_words(2, stated),
    }
}

// The session's words: only a message changes them.
pub fn planned_session(planned: Result<PlanAnswer, Refusal>, before: [u64; 16]) -> [u64; 16]
    ensures { result ≡ planned_session planned before }
{
    match planned {
        Err(_) => before,
        Ok(PlanAnswer::Silent) => before,
        Ok(PlanAnswer::Reset(_)) => before,
        Ok(PlanAnswer::Says { stated: _, session }) => session_words(session),
    }
}
