// What a message carries: nothing, the hashes to send less those that were sent, or the whole document.
ghost use Rattle.std.specs.Prelude.{true, cond, ◌&&◌, List, [], ◌≡◌, ℕ, ◌≤◌, length};
ghost use Rattle.bloom.specs.Have.{haves_of};
ghost use Rattle.table_index.specs.Index.{Indexed};
ghost use Rattle.session_check.specs.SessionGood.{heard_good, haves_good};
ghost use Rattle.rules.specs.Hash.{hashes_at};
ghost use Rattle.send.specs.Internal.Chosen.{SentRows, Choosable};
ghost use Rattle.session.specs.Plan.{body_for, body_heard, list_of};
ghost use Rattle.session_state.specs.Value.{heard_count, heard_hashes, heard_haves};
ghost use Rattle.table.specs.TableBytes.{rows_at};
ghost use Rattle.plan_parts.specs.Internal.PlanParts.{BlankBody, DocumentMarked, BodyChosen};

use bloom::have::HAVE_WORDS;
use send::chosen::choose;
use table_graph::marks::set_marks;

// How many hashes a body has, and whether they go as the document.
#[derive(Clone, Copy)]
pub struct BodyCount {
    pub document: bool,
    pub hashes: usize,
}

// More than this part of the rows goes as the document.
pub const DOCUMENT_PART: usize = 3;

// Marks every row and none of the first needs.
fn mark_document(n: usize, count: usize, marks: &mut [bool], needs: &mut [bool]) -> BodyCount
    requires { (n ≤ length marks.old) × (count ≤ length needs.old) }
    ensures { DocumentMarked n count marks.new needs.new result }
{
    set_marks(n, true, marks);
    set_marks(count, false, needs);
    BodyCount {
        document: true,
        hashes: n,
    }
}

// Whether a reason to send the document counts: it does where the peer knows V2.
fn goes_whole(v2: bool, reason: bool) -> bool
    ensures { result ≡ (v2 && reason) }
{
    if !v2 {
        return false;
    }
    reason
}

// The body for haves and a need that were heard. `headless`: the peer is heard to have no heads; `past`: the rows of the hashes that were sent.
fn body_for(
    table: &[u8],
    index: &[u8],
    n: usize,
    v2: bool,
    headless: bool,
    have_bytes: &[u8],
    haves: &[u64],
    need: &[u8],
    count: usize,
    past: &[bool],
    marks: &mut [bool],
    needs: &mut [bool],
) -> BodyCount
    requires { Choosable table.now index.now n have_bytes.now haves.now need.now 0 count × (n ≤ length past.now)
        × BlankBody n count marks.old needs.old }
    ensures { (sent : List ℕ) → SentRows (rows_at table.now 0 n) n sent past.now
        → BodyChosen (body_for (rows_at table.now 0 n) v2 headless (haves_of have_bytes.now haves.now)
        (hashes_at need.now 0 count) sent)
        (rows_at table.now 0 n) marks.new (hashes_at need.now 0 count) needs.new result }
{
    if goes_whole(v2, headless) {
        return mark_document(n, count, marks, needs);
    }
    let hashes = choose(
        table, index, n, have_bytes, haves, need, 0, count, past, marks, needs,
    );
    if goes_whole(v2, n / DOCUMENT_PART < hashes) {
        return mark_document(n, count, marks, needs);
    }
    BodyCount {
        document: false,
        hashes,
    }
}

// The body for a peer that takes changes or doesn't, and what was heard of it, as marks of the needs and the rows that it has, and how many these are.
pub fn mark_body(
    table: &[u8],
    index: &[u8],
    n: usize,
    peer_read_only: bool,
    v2: bool,
    headless: bool,
    have_bytes: &[u8],
    haves: &[u64],
    have: Option<usize>,
    their_need: &[u8],
    need: Option<usize>,
    past: &[bool],
    marks: &mut [bool],
    needs: &mut [bool],
) -> BodyCount
    requires { Indexed table.now index.now n × (haves_good have_bytes.now haves.now have ≡ true) × (heard_good their_need.now need ≡ true)
        × (n ≤ length past.now) × BlankBody n (heard_count need) marks.old needs.old }
    ensures { (sent : List ℕ) → SentRows (rows_at table.now 0 n) n sent past.now
        → BodyChosen (cond peer_read_only (list_of []) (body_heard (rows_at table.now 0 n) v2 headless
        (heard_haves have_bytes.now haves.now have) (heard_hashes their_need.now need) sent))
        (rows_at table.now 0 n) marks.new (hashes_at their_need.now 0 (heard_count need)) needs.new result }
{
    let none = BodyCount {
        document: false,
        hashes: 0,
    };
    if peer_read_only {
        return none;
    }
    let Some(count) = have else {
        return none;
    };
    let Some(asked) = need else {
        return none;
    };
    let kept = &haves[..HAVE_WORDS * count];
    body_for(
        table, index, n, v2, headless, have_bytes, kept, their_need, asked, past, marks, needs,
    )
}
