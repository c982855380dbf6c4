// The stack of levels while a tree is written: a level for each production whose arguments are not all written.
// Its bytes are its production, how many of its arguments are written, and the places where they begin and end.
#![tactic(auto)]

ghost use Rattle.std.specs.Prelude.{◌≡◌, ℕ, ◌+◌, ◌*◌, ◌<◌, ◌≤◌, length, set};
ghost use Rattle.chart.specs.Layout.{text_limit};
ghost use Rattle.common.specs.Region.{Region};
ghost use Rattle.layout.specs.Limits.{production_limit, argument_limit};
ghost use Rattle.levels.specs.Levels.{level_bytes, written_of, open_byte, DueAt};

use layout::limits::ARGUMENT_LIMIT;

// Places where the arguments of a production begin, and where the last one ends.
pub const ENDS: usize = ARGUMENT_LIMIT + 1;
// Bytes of a level.
pub const LEVEL: usize = ENDS + 2;

// What comes next at a level: an argument of a production, and its part of the text.
#[derive(Clone, Copy)]
pub struct Due {
    pub production: usize,
    pub argument: usize,
    pub from: usize,
    pub to: usize,
}

// A place as a byte.
pub fn narrow(m: usize) -> u8
    requires { m ≤ text_limit }
    ensures { result ≡ m }
{
    m as u8
}

// Byte b of the level of production q, none of whose arguments is written.
fn level_byte(q: u8, ends: [u8; ENDS], b: usize) -> u8
    requires { b < level_bytes }
    ensures { result ≡ open_byte q ends b }
{
    if b == 0 {
        return q;
    }
    if b == 1 {
        return 0;
    }
    ends[b - 2]
}

// Opens level k for production q.
pub fn open_level(levels: &mut [u8], k: usize, q: usize, ends: [u8; ENDS])
    requires { ((k + 1) * level_bytes ≤ length levels.old) × (q < production_limit) }
    ensures { Region (λ (b : ℕ) (v : ℕ). v ≡ open_byte q ends b) 0 (k * level_bytes) level_bytes levels.old levels.new }
{
    for b in 0..LEVEL {
        levels[k * LEVEL + b] = level_byte(q as u8, ends, b);
    }
}

// What comes next at level k.
pub fn due_at(levels: &[u8], k: usize) -> Due
    requires { ((k + 1) * level_bytes ≤ length levels.now) × (written_of levels.now k < argument_limit) }
    ensures { DueAt levels.now k result.production result.argument result.from result.to }
{
    let d = usize::from(levels[k * LEVEL + 1]);
    Due {
        production: usize::from(levels[k * LEVEL]),
        argument: d,
        from: usize::from(levels[k * LEVEL + 2 + d]),
        to: usize::from(levels[k * LEVEL + 2 + d + 1]),
    }
}

// One more argument of level k is written.
pub fn count_argument(levels: &mut [u8], k: usize)
    requires { ((k + 1) * level_bytes ≤ length levels.old) × (written_of levels.old k < argument_limit) }
    ensures { levels.new ≡ set levels.old (k * level_bytes + 1) (written_of levels.old k + 1) }
{
    levels[k * LEVEL + 1] += 1;
}
