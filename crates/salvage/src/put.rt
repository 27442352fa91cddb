// Rows and the report put by what was decided. Rows have room for d dependencies.
ghost use Rattle.std.specs.Prelude.{true, map, ◌≡◌, ◌+◌, ◌*◌, ◌≤◌, ◌<◌, length, get_or};
ghost use Rattle.std.proofs.lemmas.List.Edits.{sets};
ghost use Rattle.rules.specs.Sizes.{sizes};
ghost use Rattle.salvage_rules.specs.KeptRows.{kept_of};
ghost use Rattle.table.specs.TableBytes.{u16s_bytes, row_size_of, count_of, used_of, numbers_good};
ghost use Rattle.table.specs.TableWritten.{row_bytes_of, table_bytes_of};
ghost use Rattle.salvage.specs.Internal.Putting.{moved_row, row_if, RowsDecided, words_if, told_words, ToldPut};
ghost use Rattle.salvage.specs.Salvaged.{new_row};

use rules::put::copy_into;
use rules::sizes::HASH_SIZE;
use table::row::{count_of, dep_of, row_place};
use table_convert::put::put_zeros;

// Puts the numbers of row i at a place of the buffer, each adjusted.
fn put_numbers(d: usize, table: &[u8], i: usize, places: &[u16], out: &mut [u8], at: usize)
    requires { ((i + 1) * row_size_of d ≤ length table.now) × (count_of d table.now i ≤ d) × (numbers_good i (used_of d table.now i) ≡ true)
        × (i ≤ length places.now) × (i ≤ sizes.rows) × (at + 2 * count_of d table.now i ≤ length out.old) }
    ensures { out.new
        ≡ sets out.old at (u16s_bytes (map (λ k. get_or places.now k 0) (used_of d table.now i))) }
{
    let count = count_of(d, table, i);
    for j in 0..count {
        let k = dep_of(d, table, i, j);
        let place = places[k] as usize;
        out[at + 2 * j] = (place % 256) as u8;
        out[at + 2 * j + 1] = (place / 256) as u8;
    }
}

// Puts row i, its numbers adjusted, as the row that it is now.
fn put_row(d: usize, table: &[u8], i: usize, places: &[u16], out: &mut [u8])
    requires { ((i + 1) * row_size_of d ≤ length table.now) × (count_of d table.now i ≤ d) × (numbers_good i (used_of d table.now i) ≡ true)
        × (i < length places.now) × (i ≤ sizes.rows) × ((get_or places.now i 0 + 1) * row_size_of d ≤ length out.old) }
    ensures { out.new
        ≡ sets out.old (get_or places.now i 0 * row_size_of d) (row_bytes_of d (moved_row d table.now places.now i)) }
{
    let count = count_of(d, table, i);
    let start = row_place(d, i);
    let place = row_place(d, places[i] as usize);
    let numbers = place + HASH_SIZE + 2;
    copy_into(out, place, &table[start..start + HASH_SIZE + 2]);
    put_numbers(d, table, i, places, out, numbers);
    put_zeros(out, numbers + 2 * count, 2 * (d - count));
}

// Puts row i if it is kept.
fn put_kept(
    d: usize,
    table: &[u8],
    n: usize,
    i: usize,
    rules: &[u8],
    places: &[u16],
    kept: usize,
    out: &mut [u8],
)
    requires { RowsDecided d table.now n rules.now places.now kept × (n ≤ sizes.rows) × (i < n) × (kept * row_size_of d ≤ length out.old) }
    ensures { out.new
        ≡ sets out.old (length (kept_of d table.now i) * row_size_of d) (table_bytes_of d (row_if d table.now n i)) }
{
    if rules[i] != 0 {
        return;
    }
    put_row(d, table, i, places, out);
}

// Puts the kept ones of n rows.
pub fn put_rows(
    d: usize,
    table: &[u8],
    n: usize,
    rules: &[u8],
    places: &[u16],
    kept: usize,
    out: &mut [u8],
)
    requires { RowsDecided d table.now n rules.now places.now kept × (n ≤ sizes.rows) × (kept * row_size_of d ≤ length out.old) }
    ensures { out.new
        ≡ sets out.old 0 (table_bytes_of d (map (new_row d table.now (kept_of d table.now n)) (kept_of d table.now n))) }
{
    for i in 0..n {
        put_kept(d, table, n, i, rules, places, kept, out);
    }
}

// Puts row i's entry at a place of the report, if the row is dropped; answers the next entry's place.
fn put_entry(report: &mut [u64], at: usize, i: usize, rule: u8) -> usize
    requires { at + length (words_if i rule) ≤ length report.old }
    ensures { ToldPut report.old report.new at i rule result }
{
    if rule == 0 {
        return at;
    }
    report[at] = i as u64;
    report[at + 1] = rule as u64;
    at + 2
}

// Puts the entries of n rows.
pub fn put_report(n: usize, rules: &[u8], report: &mut [u64])
    requires { (n ≤ length rules.now) × (length (told_words rules.now n) ≤ length report.old) }
    ensures { report.new ≡ sets report.old 0 (told_words rules.now n) }
{
    let mut at = 0;
    for i in 0..n {
        at = put_entry(report, at, i, rules[i]);
    }
}
