// The exported calls of the crate `table_calls`.
ghost use Rattle.std.specs.Prelude.{◌≡◌};
ghost use Rattle.call_words.specs.Answer.{Answered, write_words};
ghost use Rattle.table.specs.TableBytes.{table_checked};
ghost use Rattle.table_index_build.specs.Indexing.{built_output, extended_output};
ghost use Rattle.table_convert.specs.Rows.{widened, narrowed};
ghost use Rattle.waiting.specs.WaitingCalls.{tables_checked};
ghost use Rattle.table_graph.specs.GraphCalls.{heads_output, beyond_output};
ghost use Rattle.waiting_missing.specs.MissingCalls.{missing_output};

#[unsafe(no_mangle)]
pub extern "C" fn bt_check_table(table: &[u8], answer: &mut [u64; 4])
    ensures { answer.new ≡ write_words (table_checked table.now) }
{
    table_calls::calls::bt_check_table(table, answer)
}

#[unsafe(no_mangle)]
pub extern "C" fn bt_check_tables(table: &[u8], index: &[u8], waiting: &[u8], answer: &mut [u64; 4])
    ensures { answer.new ≡ write_words (tables_checked table.now index.now waiting.now) }
{
    table_calls::calls::bt_check_tables(table, index, waiting, answer)
}

#[unsafe(no_mangle)]
pub extern "C" fn bt_build_index(table: &[u8], out: &mut [u8], answer: &mut [u64; 4])
    ensures { Answered (built_output table.now) out.old out.new answer.new }
{
    table_calls::calls::bt_build_index(table, out, answer)
}

#[unsafe(no_mangle)]
pub extern "C" fn bt_extend_index(table: &[u8], index: &[u8], out: &mut [u8], answer: &mut [u64; 4])
    ensures { Answered (extended_output table.now index.now) out.old out.new answer.new }
{
    table_calls::calls::bt_extend_index(table, index, out, answer)
}

#[unsafe(no_mangle)]
pub extern "C" fn bt_widen_rows(table: &[u8], out: &mut [u8], answer: &mut [u64; 4])
    ensures { Answered (widened table.now) out.old out.new answer.new }
{
    table_calls::calls::bt_widen_rows(table, out, answer)
}

#[unsafe(no_mangle)]
pub extern "C" fn bt_narrow_rows(table: &[u8], out: &mut [u8], answer: &mut [u64; 4])
    ensures { Answered (narrowed table.now) out.old out.new answer.new }
{
    table_calls::calls::bt_narrow_rows(table, out, answer)
}

#[unsafe(no_mangle)]
pub extern "C" fn bt_heads(
    table: &[u8],
    index: &[u8],
    before: usize,
    out: &mut [u8],
    answer: &mut [u64; 4],
)
    ensures { Answered (heads_output table.now index.now before) out.old out.new answer.new }
{
    table_calls::calls::bt_heads(table, index, before, out, answer)
}

#[unsafe(no_mangle)]
pub extern "C" fn bt_beyond(
    table: &[u8],
    index: &[u8],
    hashes: &[u8],
    out: &mut [u8],
    answer: &mut [u64; 4],
)
    ensures { Answered (beyond_output table.now index.now hashes.now)
        out.old out.new answer.new }
{
    table_calls::calls::bt_beyond(table, index, hashes, out, answer)
}

#[unsafe(no_mangle)]
pub extern "C" fn bt_missing(
    table: &[u8],
    index: &[u8],
    waiting: &[u8],
    hashes: &[u8],
    out: &mut [u8],
    answer: &mut [u64; 4],
)
    ensures { Answered (missing_output table.now index.now waiting.now hashes.now)
        out.old out.new answer.new }
{
    table_calls::calls::bt_missing(table, index, waiting, hashes, out, answer)
}
