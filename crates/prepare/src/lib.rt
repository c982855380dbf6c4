// What is prepared once for the flat tables and serves every text, as one array of bytes: which rows take a production (users), which productions have such a
// row (uses), how many arguments each production has (counts), and the empty span, its cells and the arguments behind them.
#![tactic(auto)]

ghost use Rattle.std.specs.Prelude.{◌≡◌};
ghost use Rattle.common.specs.Zeros.{AllZero};
ghost use Rattle.tables.specs.Layout.{counts_of, ParserTables};
ghost use Rattle.tables.specs.Theory.{theory_of};
ghost use Rattle.chart.specs.Layout.{row_limit};
ghost use Rattle.empty.specs.Empty.{EmptyRight};
ghost use Rattle.prepare.specs.Prepared.{prepared_bytes, Linked, Prepared};

use chart::cells::ROW_LIMIT;
use chart::sums::zero_row;
use empty::settle_empty;
use layout::limits::PRODUCTION_LIMIT;
use links::{link_users, link_uses};
use span::LinkTables;
use tables::{argument_counts, production_count, row_count};

// Where the parts stand, the users first.
pub const USES_AT: usize = PRODUCTION_LIMIT * ROW_LIMIT;

pub const COUNTS_AT: usize = USES_AT + PRODUCTION_LIMIT * PRODUCTION_LIMIT;

pub const EMPTY_AT: usize = COUNTS_AT + PRODUCTION_LIMIT;

pub const BACK_AT: usize = EMPTY_AT + ROW_LIMIT;
// The length of it all.
pub const PREPARED: usize = BACK_AT + ROW_LIMIT;

// Room for it.
pub fn zero_prepared() -> [u8; PREPARED]
    ensures { AllZero prepared_bytes result }
{
    [0; PREPARED]
}

// Prepares the flat tables, over zeros.
pub fn prepare(tables: &[u64], prepared: &mut [u8])
    requires parser_tables { ParserTables tables.now }
    requires all_zero { AllZero prepared_bytes prepared.old }
    ensures { Prepared tables.now prepared.new }
{
    let counts = argument_counts(tables);
    let count = production_count(tables);
    prepare_by_counts(&counts[..count], tables, prepared);
}

// The same with the argument counts as bytes.
fn prepare_by_counts(counts: &[u8], tables: &[u64], prepared: &mut [u8])
    requires parser_tables { ParserTables tables.now }
    requires counts_value { counts.now ≡ counts_of tables.now }
    requires all_zero { AllZero prepared_bytes prepared.old }
    ensures { Prepared tables.now prepared.new }
{
    prepare_links(counts, tables, prepared);
    let mut empty = zero_row();
    let mut back = zero_row();
    settle_by_links(counts, tables, prepared, &mut back, &mut empty);
    prepared[COUNTS_AT..COUNTS_AT + counts.len()].copy_from_slice(counts);
    prepared[EMPTY_AT..BACK_AT].copy_from_slice(&empty);
    prepared[BACK_AT..PREPARED].copy_from_slice(&back);
}

// The users and the uses.
fn prepare_links(counts: &[u8], tables: &[u64], prepared: &mut [u8])
    requires parser_tables { ParserTables tables.now }
    requires counts_value { counts.now ≡ counts_of tables.now }
    requires all_zero { AllZero prepared_bytes prepared.old }
    ensures { Linked tables.now prepared.new }
{
    link_users(counts, tables, &mut prepared[..USES_AT]);
    link_uses(counts, tables, &mut prepared[USES_AT..COUNTS_AT]);
}

// The empty span, settled by the links, over zeros.
fn settle_by_links(counts: &[u8], tables: &[u64], linked: &[u8], back: &mut [u8], empty: &mut [u8])
    requires parser_tables { ParserTables tables.now }
    requires counts_value { counts.now ≡ counts_of tables.now }
    requires linked { Linked tables.now linked.now }
    requires all_zero { AllZero row_limit back.old × AllZero row_limit empty.old }
    ensures { EmptyRight (theory_of tables.now) empty.new back.new }
{
    let links = LinkTables {
        counts,
        rows: row_count(tables),
        users: &linked[..USES_AT],
        uses: &linked[USES_AT..COUNTS_AT],
    };
    settle_empty(&links, back, empty);
}
