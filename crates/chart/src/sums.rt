// The cap, the larger of two, and an empty row table.
ghost use Rattle.std.specs.Prelude.{◌≡◌, max};
ghost use Rattle.theory.specs.Steps.{cap};
ghost use Rattle.common.specs.Zeros.{AllZero};
ghost use Rattle.chart.specs.Layout.{row_limit};

use crate::cells::ROW_LIMIT;

// 0, 1, or 2 for more. With branches it takes less time than as a minimum: what is read next need not wait for a branch that is foreseen.
pub fn capped(n: usize) -> u8
    ensures { result ≡ cap n }
{
    if n == 0 {
        return 0;
    }
    if n == 1 {
        return 1;
    }
    2
}

// The same for a byte; the inner loop does many at a step.
pub fn capped_byte(x: u8) -> u8
    ensures { result ≡ cap x }
{
    x.min(2)
}

// The larger of two bytes.
pub fn larger(a: u8, b: u8) -> u8
    ensures { result ≡ max a b }
{
    a.max(b)
}

// A zero for each row.
pub fn zero_row() -> [u8; ROW_LIMIT]
    ensures { AllZero row_limit result }
{
    [0; ROW_LIMIT]
}
