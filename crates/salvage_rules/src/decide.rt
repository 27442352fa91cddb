// Rows decided one after the other. They have room for d dependencies.
ghost use Rattle.std.specs.Prelude.{true, ◌||◌, cond, ◌≡◌, ◌+◌, ◌*◌, ◌≤◌, ◌<◌, eqb, length, get_or};
ghost use Rattle.hash_order.specs.Order.{every};
ghost use Rattle.rules.specs.Sizes.{sizes};
ghost use Rattle.table.specs.TableBytes.{row_size_of, count_of, used_of, numbers_good};
ghost use Rattle.table_index.specs.Index.{record_hash};
ghost use Rattle.salvage_rules.specs.Internal.Decided.{Classes, rule_of, Before, Decided, Taken};

use crate::classes::put_classes;
use rules::sizes::ROWS;
use table::check::{numbers_good, zeros_good};
use table::row::{count_of, dep_of, row_size};
use table_order::entry::INDEX_SIZE;
use table_order::merge::build_by_rows;

// Whether each row that row i depends on is kept: no rule stands beside it.
fn deps_kept(d: usize, table: &[u8], i: usize, rules: &[u8]) -> bool
    requires { ((i + 1) * row_size_of d ≤ length table.now) × (count_of d table.now i ≤ d)
        × (numbers_good i (used_of d table.now i) ≡ true) × (i ≤ length rules.now) }
    ensures { result ≡ every (λ k. eqb (get_or rules.now k 0) 0) (used_of d table.now i) }
{
    let count = count_of(d, table, i);
    for j in 0..count {
        let k = dep_of(d, table, i, j);
        if rules[k] != 0 {
            return false;
        }
    }
    true
}

// The first rule that row i breaks, or 0. `taken` says whether an earlier kept row has its hash.
fn rule_of(d: usize, table: &[u8], i: usize, rules: &[u8], taken: bool) -> u8
    requires { Before d table.now i rules.now taken }
    ensures { result ≡ rule_of d table.now i }
{
    if d < count_of(d, table, i) {
        return 1;
    }
    if !numbers_good(d, table, i) {
        return 2;
    }
    if !zeros_good(d, table, i) {
        return 3;
    }
    if taken {
        return 4;
    }
    if !deps_kept(d, table, i, rules) {
        return 5;
    }
    0
}

// Whether a kept row has a hash, after a row of that hash.
fn taken_after(taken: bool, rule: u8) -> bool
    ensures { result ≡ (eqb rule 0 || taken) }
{
    if rule == 0 {
        return true;
    }
    taken
}

// How many rows are kept, after one more row.
fn kept_after(kept: usize, rule: u8) -> usize
    requires { kept ≤ sizes.rows }
    ensures { result ≡ cond (eqb rule 0) (kept + 1) kept }
{
    if rule == 0 {
        return kept + 1;
    }
    kept
}

// Decides n rows, each after those before it, and counts the kept ones.
fn decide_rows(
    d: usize,
    table: &[u8],
    n: usize,
    classes: &[u16],
    taken: &mut [bool],
    rules: &mut [u8],
    places: &mut [u16],
) -> usize
    requires { (n * row_size_of d ≤ length table.now) × (n ≤ sizes.rows) × (n ≤ length classes.now) × (n ≤ length taken.old)
        × (n ≤ length rules.old) × (n ≤ length places.old)
        × Classes (record_hash table.now (row_size_of d)) n classes.now × Taken d table.now n classes.now taken.old 0 }
    ensures { Decided d table.now n rules.new places.new result }
{
    let mut kept = 0;
    for i in 0..n {
        let class = classes[i] as usize;
        let was = taken[class];
        let rule = rule_of(d, table, i, rules, was);
        rules[i] = rule;
        places[i] = kept as u16;
        taken[class] = taken_after(was, rule);
        kept = kept_after(kept, rule);
    }
    kept
}

// Gives each of n rows the first rule that it breaks, or 0, and how many rows before it are kept; answers how many are.
pub fn decide(d: usize, table: &[u8], n: usize, rules: &mut [u8], places: &mut [u16]) -> usize
    requires { (n * row_size_of d ≤ length table.now) × (n ≤ sizes.rows) × (n ≤ length rules.old) × (n ≤ length places.old)
        × (d < 65536) }
    ensures { Decided d table.now n rules.new places.new result }
{
    let mut order = [0u8; INDEX_SIZE];
    build_by_rows(table, row_size(d), &mut order, n);
    let mut classes = [0u16; ROWS];
    put_classes(d, table, &order, n, &mut classes);
    let mut taken = [false; ROWS];
    decide_rows(d, table, n, &classes, &mut taken, rules, places)
}
