// How much of each part an answer puts into the lent buffers.
ghost use Rattle.std.specs.Prelude.{◌≡◌};
ghost use Rattle.plan_decide.specs.Internal.Draft.{puts_for, puts_of};

use rules::refusal::Refusal;
use session::plan_answer::{PlanAnswer, Stated};

// How many hashes go into each list, and how many bytes the field has.
#[derive(Clone, Copy)]
pub struct Puts {
    pub heads: usize,
    pub need: usize,
    pub syncs: usize,
    pub field: usize,
    pub hashes: usize,
    pub last_sent: usize,
    pub sent: usize,
}

fn puts_for(p: Stated, last_sent: usize, sent: usize) -> Puts
    ensures { result ≡ puts_for p last_sent sent }
{
    let filter = p.filter;
    Puts {
        heads: p.heads,
        need: p.need,
        syncs: p.syncs,
        field: filter.size,
        hashes: p.hashes,
        last_sent,
        sent,
    }
}

// What an answer puts: nothing after a refusal and in silence.
pub fn puts_of(planned: Result<PlanAnswer, Refusal>) -> Puts
    ensures { result ≡ puts_of planned }
{
    let none = Puts {
        heads: 0,
        need: 0,
        syncs: 0,
        field: 0,
        hashes: 0,
        last_sent: 0,
        sent: 0,
    };
    match planned {
        Err(_) => none,
        Ok(PlanAnswer::Silent) => none,
        Ok(PlanAnswer::Reset(stated)) => puts_for(stated, 0, 0),
        Ok(PlanAnswer::Says { stated, session }) => {
            puts_for(stated, session.last_sent_heads, session.sent_hashes)
        }
    }
}
