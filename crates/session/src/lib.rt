// A session's two steps, and what the two calls answer and leave: what a reader must believe of sessions stands in specs/, a page a subject.
//
//   on values             Plan (generate_sync_message of src/sync.rs), Receive (receive_sync_message), GoodState, Laid (haves as a session keeps them)
//   over what is lent     PlanCall, ReceiveCall: every refusal in its order, the answer, and the content of every buffer at exit
//   between two calls     Kept: a session that stands in lent lists is good and read back as itself; Arms: M-105's two theorems
//
// The types of both answers are here; the code that plans stands in the crates plan_.. up to `plan`, the code that receives in receive_.. up to `receive`.
#![tactic(auto)]

pub mod plan_answer;
pub mod receive_answer;
