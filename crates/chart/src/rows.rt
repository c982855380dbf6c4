// Tables with an entry for each row, written by a function of a production and how many arguments come before.
ghost use Rattle.std.specs.Prelude.{◌≡◌, ℕ, ◌+◌, ◌<◌, ◌≤◌, length};
ghost use Rattle.common.specs.Region.{Region};
ghost use Rattle.common.specs.Zeros.{AllZero};
ghost use Rattle.layout.specs.Limits.{production_limit, argument_limit};
ghost use Rattle.tables.specs.Layout.{arity_in};
ghost use Rattle.chart.specs.Layout.{row_limit};
ghost use Rattle.chart.specs.Rows.{RowsFilled};

use common::wide;

// Writes the entry for each argument of production p.
fn fill_production<F: Fn(usize, usize) -> u8>(
    value: &F,
    p: usize,
    base: usize,
    arity: usize,
    out: &mut [u8],
)
    requires room { (length out.old ≡ row_limit) × (base + arity < row_limit) }
    requires callable { (d : ℕ) → d < arity → F.pre value.now p d }
    ensures { (v : ℕ → ℕ) → ((d r : ℕ) → d < arity → F.post value.now p d r → r ≡ v d) → Region (λ (d : ℕ) (x : ℕ). x ≡ v d) 0 base arity out.old out.new }
{
    for d in 0..arity {
        out[base + d] = value(p, d);
    }
}

// Writes the entry for each argument of each production, over zeros.
pub fn fill_rows<F: Fn(usize, usize) -> u8>(counts: &[u8], value: F, out: &mut [u8])
    requires few { (length counts.now ≤ production_limit) × ((p : ℕ) → arity_in counts.now p ≤ argument_limit) }
    requires callable { (p d : ℕ) → p < length counts.now → d < arity_in counts.now p → F.pre value p d }
    requires all_zero { AllZero row_limit out.old }
    ensures { (v : ℕ → ℕ → ℕ) → ((p d r : ℕ) → p < length counts.now → d < arity_in counts.now p → F.post value p d r → r ≡ v p d) → RowsFilled v counts.now (length counts.now) out.new }
{
    let mut base = 0;
    for (p, count) in counts.iter().enumerate() {
        fill_production(&value, p, base, wide(*count), out);
        base += wide(*count) + 1;
    }
}
