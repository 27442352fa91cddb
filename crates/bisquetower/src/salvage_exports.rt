// The exported calls of the crate `salvage_calls`.
ghost use Rattle.salvage_calls.specs.SalvageWords.{SalvageAnswered};

#[unsafe(no_mangle)]
pub extern "C" fn bt_salvage(
    table: &[u8],
    rows: &mut [u8],
    report: &mut [u64],
    answer: &mut [u64; 4],
)
    ensures { SalvageAnswered table.now rows.old rows.new report.old report.new
        answer.new }
{
    salvage_calls::calls::bt_salvage(table, rows, report, answer)
}
