// The empty span, settled once for all places. At it the split at the start and the split at the end are one: a cell is the product of the cell before it and
// the next argument. The arguments are held fixed while the cells are settled, and taken up again until they stay.
#![tactic(auto)]

ghost use Rattle.std.specs.Prelude.{◌≡◌, Bool, ℕ, length};
ghost use Rattle.common.specs.Zeros.{AllZero};
ghost use Rattle.chart.specs.Layout.{row_limit};
ghost use Rattle.tables.specs.Theory.{grammar_of};
ghost use Rattle.span.specs.Tables.{UsersAre};
ghost use Rattle.empty.specs.Empty.{EmptyRight};
ghost use Rattle.empty.specs.Turns.{Begun, Followed};

use chart::cells::ROW_LIMIT;
use chart::sums::zero_row;
use common::wide;
use span::{LinkTables, settle, spread};

// With no argument there is one list of trees, the empty one; a production without arguments has a tree by it.
fn begin(links: &LinkTables, args: &mut [u8], cells: &mut [u8])
    requires { AllZero row_limit args.old × AllZero row_limit cells.old }
    ensures { Begun links.now.counts.now links.now.users.now (length links.now.counts.now) args.new cells.new }
{
    let mut base = 0;
    for (p, count) in links.counts.iter().enumerate() {
        cells[base] = 1;
        spread(
            args,
            &links.users[p * ROW_LIMIT..(p + 1) * ROW_LIMIT],
            links.rows,
            (*count == 0) as u8,
        );
        base += wide(*count) + 1;
    }
}

// Takes up the arguments: true if they had changed.
fn follow(back: &mut [u8], args: &[u8]) -> bool
    requires { length back.old ≡ length args.now }
    ensures { Followed back.old args.now back.new result }
{
    let changed = *back != *args;
    back.copy_from_slice(args);
    changed
}

// Settles the empty span. The tables hold zeros before.
pub fn settle_empty(links: &LinkTables, args: &mut [u8], cells: &mut [u8])
    requires { AllZero row_limit args.old × AllZero row_limit cells.old }
    ensures { (chars subs : ℕ → ℕ → ℕ → Bool) → UsersAre links.now.counts.now links.now.users.now subs → EmptyRight (grammar_of links.now.counts.now chars subs) cells.new args.new }
{
    let zeros = zero_row();
    let mut back = zero_row();
    begin(links, args, cells);
    let mut changed = follow(&mut back, args);
    while changed {
        settle(links, &zeros, &zeros, &back, args, cells);
        changed = follow(&mut back, args);
    }
}
