// The call of the crate `salvage`.
ghost use Rattle.salvage_calls.specs.SalvageWords.{SalvageAnswered};

use crate::answer::salvage_words;

// Salvages the change table in `table`, hurt or not: writes the kept rows, their numbers adjusted, at the start of `rows`, and at the start of `report`
// two words for each dropped row, its number in `table` and the first rule that it broke (1 count, 2 row numbers, 3 zeros, 4 repeated hash, 5 lost
// dependency). Answer: 0, the bytes of the rows, the entries of the report, the bytes of a partial last record; or 4 and 0 for a table past its size; 7
// and the bytes wanted for `rows`; 7 and the entries wanted for `report`, two words each.
#[unsafe(no_mangle)]
pub extern "C" fn bt_salvage(
    table: &[u8],
    rows: &mut [u8],
    report: &mut [u64],
    answer: &mut [u64; 4],
)
    ensures { SalvageAnswered table.now rows.old rows.new report.old report.new
        answer.new }
{
    *answer = salvage_words(salvage::salvage::salvage_table(table, rows, report));
}
