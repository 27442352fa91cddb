// Waiting rows asked by their hashes: a change that waits asks its own list, once, and a list asks each change in turn.
ghost use Rattle.std.specs.Prelude.{◌+◌, ◌*◌, ◌≤◌, ◌<◌, length};
ghost use Rattle.rules.specs.Hash.{hashes_at};
ghost use Rattle.rules.specs.Sizes.{sizes};
ghost use Rattle.waiting.specs.WaitingBytes.{waitings_at};
ghost use Rattle.waiting.specs.Waiting.{asks_of};
ghost use Rattle.waiting_asked.specs.Asking.{Request, Asks, Askable};

use rules::sizes::{HASH_SIZE, WAITING_ROWS};
use waiting::check::asks_count;
use waiting::find::{ORDER_SIZE, find_waiting};
use waiting::row::{ASKS_PLACE, WAITING_SIZE};

// Asks the change of a waiting row, or none where there is no such row: one that hasn't been asked is marked and asks its list. The marks make the
// calls end: each list is asked with one row less unmarked.
#[cycle(ask_change_ask_list)]
fn ask_change(
    waiting: &[u8],
    order: &[u8; ORDER_SIZE],
    m: usize,
    marks: &mut [bool; WAITING_ROWS],
    row: usize,
)
    requires { Askable waiting.now order.now m marks.old }
    ensures { Asks (waitings_at waiting.now 0 m) (Request.change row) marks.old marks.new }
{
    if m <= row {
        return;
    }
    if marks[row] {
        return;
    }
    marks[row] = true;
    ask_list(waiting, order, m, marks, row);
}

// Asks each change of a waiting row's list in turn.
#[cycle(ask_change_ask_list)]
fn ask_list(
    waiting: &[u8],
    order: &[u8; ORDER_SIZE],
    m: usize,
    marks: &mut [bool; WAITING_ROWS],
    row: usize,
)
    requires { Askable waiting.now order.now m marks.old × (row < m) }
    ensures { Asks (waitings_at waiting.now 0 m) (Request.list (asks_of (waitings_at waiting.now 0 m) row))
        marks.old marks.new }
{
    let place = row * WAITING_SIZE + ASKS_PLACE;
    let entries = asks_count(waiting, row);
    for i in 0..entries {
        let next = find_waiting(waiting, order, m, waiting, place + HASH_SIZE * i);
        ask_change(waiting, order, m, marks, next);
    }
}

// Asks each change of a list that stands in bytes of its own. It is no part of the cycle, whose lists all stand in the waiting table.
pub fn ask_hashes(
    waiting: &[u8],
    order: &[u8; ORDER_SIZE],
    m: usize,
    marks: &mut [bool; WAITING_ROWS],
    bytes: &[u8],
    place: usize,
    entries: usize,
)
    requires { Askable waiting.now order.now m marks.old × (place + sizes.hash * entries ≤ length bytes.now) }
    ensures { Asks (waitings_at waiting.now 0 m) (Request.list (hashes_at bytes.now place entries))
        marks.old marks.new }
{
    for i in 0..entries {
        let next = find_waiting(waiting, order, m, bytes, place + HASH_SIZE * i);
        ask_change(waiting, order, m, marks, next);
    }
}
