// Turns the classes of the flat tables round: for each production, the rows that take it as their next argument (its users), and the productions that have
// such a row (its uses). Eight productions go together: an octet of a class has a bit for each of them, and bit b of all octets is a row of users.
#![tactic(auto)]

ghost use Rattle.std.specs.Prelude.{◌≡◌, ℕ, ◌+◌, ◌*◌, ◌<◌, ◌≤◌, length, get_or};
ghost use Rattle.common.specs.Below.{bit_of};
ghost use Rattle.common.specs.Region.{Region};
ghost use Rattle.common.specs.Zeros.{AllZero};
ghost use Rattle.charset.specs.Set.{bit};
ghost use Rattle.layout.specs.Limits.{production_limit, argument_limit};
ghost use Rattle.tables.specs.Layout.{slot, arity_in, octet_bits, production_octets, production_octet, table_words};
ghost use Rattle.chart.specs.Layout.{row_limit};
ghost use Rattle.chart.specs.Rows.{RowsFilled};
ghost use Rattle.span.specs.Tables.{user_bytes, use_bytes};
ghost use Rattle.links.specs.Linked.{Joined, UsedOctets, BitsTurned, UsersTo, UsesTo};

use chart::cells::ROW_LIMIT;
use chart::rows::fill_rows;
use chart::sums::zero_row;
use common::wide;
use layout::limits::{ARGUMENT_LIMIT, PRODUCTION_LIMIT};
use tables::{OCTET_BITS, class_octet};

// ---- octets

// For each row octet k of what it takes.
fn row_octets(counts: &[u8], tables: &[u64], k: usize) -> [u8; ROW_LIMIT]
    requires counts_len_bound { (length counts.now ≤ production_limit) × ((p : ℕ) → arity_in counts.now p ≤ argument_limit) × (length tables.now ≡ table_words) }
    requires k_lt_production_octets { k < production_octets }
    ensures { RowsFilled (λ p d. production_octet tables.now (slot p d) k) counts.now (length counts.now) result }
{
    let mut out = zero_row();
    fill_rows(
        counts,
        |p, d| class_octet(tables, p * ARGUMENT_LIMIT + d, k),
        &mut out,
    );
    out
}

// Octet k of what any argument of production p takes.
fn used_octet(tables: &[u64], k: usize, p: usize, arity: usize) -> u8
    requires tables_len { (length tables.now ≡ table_words) × (k < production_octets) }
    requires p_lt_production_limit { (p < production_limit) × (arity ≤ argument_limit) }
    ensures { Joined tables.now p k arity result }
{
    let mut all = 0;
    for d in 0..arity {
        all |= class_octet(tables, p * ARGUMENT_LIMIT + d, k);
    }
    all
}

// The same for each production.
fn used_octets(counts: &[u8], tables: &[u64], k: usize) -> [u8; PRODUCTION_LIMIT]
    requires counts_len_bound { (length counts.now ≤ production_limit) × ((p : ℕ) → arity_in counts.now p ≤ argument_limit) × (length tables.now ≡ table_words) }
    requires k_lt_production_octets { k < production_octets }
    ensures { UsedOctets counts.now tables.now k (length counts.now) result }
{
    let mut out = [0; PRODUCTION_LIMIT];
    for (p, count) in counts.iter().enumerate() {
        out[p] = used_octet(tables, k, p, wide(*count));
    }
    out
}

// ---- turned round

// Writes bit b of each octet, from `at` on.
fn put_bits(octets: &[u8], b: usize, out: &mut [u8], at: usize)
    requires { (b < octet_bits) × (at + length octets.now ≤ length out.old) }
    ensures { Region (λ (r : ℕ) (v : ℕ). v ≡ bit_of (bit (get_or octets.now r 0) b)) 0 at (length octets.now) out.old out.new }
{
    for (r, octet) in octets.iter().enumerate() {
        out[at + r] = (*octet >> b) % 2;
    }
}

// The first `count` bits of the octets as rows, from row `from` on.
fn turn_octets(octets: &[u8], from: usize, count: usize, out: &mut [u8])
    requires octets_in_bounds { (from + count) * length octets.now ≤ length out.old }
    requires from_lt_production_limit { (from < production_limit) × (count ≤ octet_bits) × (length octets.now ≤ row_limit) }
    ensures { BitsTurned octets.now from count out.old out.new }
{
    for b in 0..count {
        put_bits(octets, b, out, (from + b) * octets.len());
    }
}

// Writes, over zeros, which rows take each production.
pub fn link_users(counts: &[u8], tables: &[u64], users: &mut [u8])
    requires counts_len_bound { (length counts.now ≤ production_limit) × ((p : ℕ) → arity_in counts.now p ≤ argument_limit) × (length tables.now ≡ table_words) }
    requires all_zero { AllZero user_bytes users.old }
    ensures { UsersTo counts.now tables.now (length counts.now) users.new }
{
    for k in 0..counts.len().div_ceil(OCTET_BITS) {
        let octets = row_octets(counts, tables, k);
        let count = (counts.len() - k * OCTET_BITS).min(OCTET_BITS);
        turn_octets(&octets, k * OCTET_BITS, count, users);
    }
}

// Writes which productions have a row that takes each production.
pub fn link_uses(counts: &[u8], tables: &[u64], uses: &mut [u8])
    requires counts_len_bound { (length counts.now ≤ production_limit) × ((p : ℕ) → arity_in counts.now p ≤ argument_limit) × (length tables.now ≡ table_words) }
    requires uses_len { length uses.old ≡ use_bytes }
    ensures { UsesTo counts.now tables.now (length counts.now) uses.new }
{
    for k in 0..counts.len().div_ceil(OCTET_BITS) {
        let octets = used_octets(counts, tables, k);
        let count = (counts.len() - k * OCTET_BITS).min(OCTET_BITS);
        turn_octets(&octets, k * OCTET_BITS, count, uses);
    }
}
