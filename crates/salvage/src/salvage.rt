// A hurt table salvaged.
ghost use Rattle.std.specs.Prelude.{◌≡◌, ◌*◌, ◌/◌, ◌≤◌, ◌<◌, length};
ghost use Rattle.rules.specs.Sizes.{sizes};
ghost use Rattle.table.specs.TableBytes.{row_size_of};
ghost use Rattle.salvage.specs.Internal.Putting.{RowsDecided};
ghost use Rattle.salvage.specs.Salvaged.{SalvageCalled};

use crate::put::{put_report, put_rows};
use rules::refusal::Refusal;
use rules::sizes::{DEPENDENCIES, ROWS};
use salvage_rules::decide::decide;
use table::row::{ROW_SIZE, row_place, row_size};

// Bytes of the new table, entries of the report, and bytes of a partial last record.
#[derive(Clone, Copy)]
pub struct Amounts {
    pub rows: usize,
    pub report: usize,
    pub partial: usize,
}

// Writes what was decided, if there is room for both parts of it. Where there isn't, nothing is written.
fn write_salvaged(
    d: usize,
    table: &[u8],
    n: usize,
    rules: &[u8],
    places: &[u16],
    kept: usize,
    rows: &mut [u8],
    report: &mut [u64],
) -> Result<Amounts, Refusal>
    requires { RowsDecided d table.now n rules.now places.now kept × (n ≡ length table.now / row_size_of d) × (n ≤ sizes.rows) × (d < 65536)
        × (length table.now ≤ sizes.rows * row_size_of d) }
    ensures { SalvageCalled d sizes.rows table.now rows.old rows.new report.old report.new result }
{
    let size = row_place(d, kept);
    if rows.len() < size {
        return Err(Refusal::NoRoom(size));
    }
    let entries = n - kept;
    if report.len() / 2 < entries {
        return Err(Refusal::NoRoom(entries));
    }
    put_rows(d, table, n, rules, places, kept, rows);
    put_report(n, rules, report);
    Ok(Amounts {
        rows: size,
        report: entries,
        partial: table.len() % row_size(d),
    })
}

// Salvages a change table: the kept rows go to the start of `rows`, and two numbers for each dropped row, its own and the rule's, to the start of
// `report`. Where it is refused, nothing is written.
pub fn salvage_table(table: &[u8], rows: &mut [u8], report: &mut [u64]) -> Result<Amounts, Refusal>
    ensures { SalvageCalled sizes.dependencies sizes.rows table.now
        rows.old rows.new report.old report.new result }
{
    if ROWS * ROW_SIZE < table.len() {
        return Err(Refusal::PastSize(0));
    }
    let n = table.len() / ROW_SIZE;
    let mut rules = [0u8; ROWS];
    let mut places = [0u16; ROWS];
    let kept = decide(DEPENDENCIES, table, n, &mut rules, &mut places);
    write_salvaged(DEPENDENCIES, table, n, &rules, &places, kept, rows, report)
}
