// Calls of the crates `table_check`, `table_index_build`, `table_convert`, `waiting`, `table_graph` and `waiting_missing`.
ghost use Rattle.std.specs.Prelude.{◌≡◌};
ghost use Rattle.call_words.specs.Answer.{Answered, write_words};
ghost use Rattle.table.specs.TableBytes.{table_checked};
ghost use Rattle.table_index_build.specs.Indexing.{built_output, extended_output};
ghost use Rattle.table_convert.specs.Rows.{widened, narrowed};
ghost use Rattle.waiting.specs.WaitingCalls.{tables_checked};
ghost use Rattle.table_graph.specs.GraphCalls.{heads_output, beyond_output};
ghost use Rattle.waiting_missing.specs.MissingCalls.{missing_output};

use call_words::answer::write_words;

// Checks the change table in `table`. Answer: 0, how many rows it has.
#[unsafe(no_mangle)]
pub extern "C" fn bt_check_table(table: &[u8], answer: &mut [u64; 4])
    ensures { answer.new ≡ write_words (table_checked table.now) }
{
    *answer = write_words(table_check::check::check_alone(table));
}

// Checks the change table in `table` beside its index in `index`, and the waiting table in `waiting` beside both. Answer: 0, how many rows the
// waiting table has.
#[unsafe(no_mangle)]
pub extern "C" fn bt_check_tables(table: &[u8], index: &[u8], waiting: &[u8], answer: &mut [u64; 4])
    ensures { answer.new ≡ write_words (tables_checked table.now index.now waiting.now) }
{
    *answer = write_words(waiting::check::check_tables(table, index, waiting));
}

// Writes the index of the change table in `table` at the start of `out`: the row numbers in ascending order of hash, two bytes each. Answer: 0, the
// bytes written.
#[unsafe(no_mangle)]
pub extern "C" fn bt_build_index(table: &[u8], out: &mut [u8], answer: &mut [u64; 4])
    ensures { Answered (built_output table.now) out.old out.new answer.new }
{
    *answer = write_words(table_index_build::build::build_index(table, out));
}

// Writes the index of the change table in `table` at the start of `out`, by extending `index`, which is that of all rows but the last; the bytes
// are those that building gives. Answer: 0, the bytes written.
#[unsafe(no_mangle)]
pub extern "C" fn bt_extend_index(table: &[u8], index: &[u8], out: &mut [u8], answer: &mut [u64; 4])
    ensures { Answered (extended_output table.now index.now) out.old out.new answer.new }
{
    *answer = write_words(table_index_build::build::extend_index(table, index, out));
}

// Writes the change table of old rows in `table`, 64 bytes each with room for 15 dependencies, at the start of `out` as rows of 256 bytes with room
// for 111: the same rows in the same order, so an index of the one is an index of the other. Answer: 0, the bytes written; or 4 and 0 for more than
// 1,024 rows, 6 and the first row that is bad by the rules of the old rows, 7 and the bytes wanted.
#[unsafe(no_mangle)]
pub extern "C" fn bt_widen_rows(table: &[u8], out: &mut [u8], answer: &mut [u64; 4])
    ensures { Answered (widened table.now) out.old out.new answer.new }
{
    *answer = write_words(table_convert::convert::widen_rows(table, out));
}

// Writes the change table in `table` at the start of `out` as old rows, 64 bytes each with room for 15 dependencies; widened again they are the same
// bytes. Answer: 0, the bytes written; or 4 and 0 for a table past its size, 6 and its first bad row, 4 and 0 for a good table of more than 1,024
// rows, 13 and the first row of more than 15 dependencies, 7 and the bytes wanted.
#[unsafe(no_mangle)]
pub extern "C" fn bt_narrow_rows(table: &[u8], out: &mut [u8], answer: &mut [u64; 4])
    ensures { Answered (narrowed table.now) out.old out.new answer.new }
{
    *answer = write_words(table_convert::convert::narrow_rows(table, out));
}

// Writes the heads of the first `before` rows of the change table in `table` at the start of `out`, ascending, 32 bytes each. `index` is the index
// of the whole table. Answer: 0, the bytes written.
#[unsafe(no_mangle)]
pub extern "C" fn bt_heads(
    table: &[u8],
    index: &[u8],
    before: usize,
    out: &mut [u8],
    answer: &mut [u64; 4],
)
    ensures { Answered (heads_output table.now index.now before) out.old out.new answer.new }
{
    *answer = write_words(table_graph::heads::heads(table, index, before, out));
}

// Writes the hashes of the rows of the change table in `table` that are neither in a list nor ancestors of it at the start of `out`, in table
// order, 32 bytes each. `index` is the table's index. The list is the hashes in `hashes`; those that aren't held are ignored. Answer: 0, the bytes
// written.
#[unsafe(no_mangle)]
pub extern "C" fn bt_beyond(
    table: &[u8],
    index: &[u8],
    hashes: &[u8],
    out: &mut [u8],
    answer: &mut [u64; 4],
)
    ensures { Answered (beyond_output table.now index.now hashes.now)
        out.old out.new answer.new }
{
    *answer = write_words(table_graph::beyond::beyond(table, index, hashes, out));
}

// Writes what is missing from the hashes in `hashes` at the start of `out`, each hash once, ascending, 32 bytes each: those of them that are
// unknown, and what waiting changes that are asked for lack. `table` is the change table, `index` its index and `waiting` the waiting table beside
// it. Answer: 0, the bytes written.
#[unsafe(no_mangle)]
pub extern "C" fn bt_missing(
    table: &[u8],
    index: &[u8],
    waiting: &[u8],
    hashes: &[u8],
    out: &mut [u8],
    answer: &mut [u64; 4],
)
    ensures { Answered (missing_output table.now index.now waiting.now hashes.now)
        out.old out.new answer.new }
{
    *answer = write_words(waiting_missing::missing::missing(table, index, waiting, hashes, out));
}
