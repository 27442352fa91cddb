// Whether there is nothing to say.
ghost use Rattle.std.specs.Prelude.{true, ◌&&◌, ◌||◌, List, [], ◌≡◌, ℕ, ◌*◌, ◌≤◌, length};
ghost use Rattle.session_check.specs.SessionGood.{heard_good};
ghost use Rattle.table_graph.specs.Internal.Marks.{picked};
ghost use Rattle.table_index.specs.Index.{Indexed};
ghost use Rattle.hash_lists.specs.Lists.{same};
ghost use Rattle.hash_order.specs.Order.{ascend};
ghost use Rattle.rules.specs.Hash.{hashes_at};
ghost use Rattle.rules.specs.Sizes.{sizes};
ghost use Rattle.session.specs.Plan.{heard_as};
ghost use Rattle.session_state.specs.Value.{heard_hashes};
ghost use Rattle.table.specs.TableBytes.{rows_at};
ghost use Rattle.table.specs.Table.{rows};

use table_graph::marked::same_marked;

// Whether a list of no hashes was heard, wherever it stands.
pub fn heard_none(heard: Option<usize>) -> bool
    ensures { (theirs : List ℕ) → result ≡ heard_as [] (heard_hashes theirs heard) }
{
    match heard {
        None => false,
        Some(many) => many == 0,
    }
}

// Whether a list was heard and is that of the marked rows, ascending.
pub fn heard_as(
    table: &[u8],
    index: &[u8],
    n: usize,
    marks: &[bool],
    theirs: &[u8],
    heard: Option<usize>,
) -> bool
    requires { Indexed table.now index.now n × (n ≤ length marks.now) × (heard_good theirs.now heard ≡ true) }
    ensures { result ≡ heard_as (ascend (picked (rows (rows_at table.now 0 n)) marks.now)) (heard_hashes theirs.now heard) }
{
    match heard {
        None => false,
        Some(many) => same_marked(table, index, n, n, marks, theirs, 0, many),
    }
}

// Whether the marked rows, ascending, are the heads that were sent last, and the peer was answered.
pub fn is_told(
    responded: bool,
    table: &[u8],
    index: &[u8],
    n: usize,
    marks: &[bool],
    last_sent: &[u8],
    last: usize,
) -> bool
    requires { Indexed table.now index.now n × (n ≤ length marks.now) × (sizes.hash * last ≤ length last_sent.now) }
    ensures { result ≡ (same (hashes_at last_sent.now 0 last)
        (ascend (picked (rows (rows_at table.now 0 n)) marks.now)) && responded) }
{
    if !same_marked(table, index, n, n, marks, last_sent, 0, last) {
        return false;
    }
    responded
}

// Whether nothing is to be said by a unit whose heads were told or not: they are the peer's, or the unit takes no changes, and nothing goes; or a
// message is on its way.
pub fn is_silent(told: bool, equal: bool, read_only: bool, nothing: bool, in_flight: bool) -> bool
    ensures { result ≡ (told && (((equal || read_only) && nothing) || in_flight)) }
{
    if !told {
        return false;
    }
    if in_flight {
        return true;
    }
    if !nothing {
        return false;
    }
    if equal {
        return true;
    }
    read_only
}
