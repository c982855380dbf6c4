// The input of the programs that run stored cases: fields, each two bytes with its length, low byte first, and then its bytes.
#![tactic(auto)]

ghost use Rattle.std.specs.Prelude.{◌≡◌, ◌<◌, ◌≤◌, length, slice_range, get_or};
ghost use Rattle.records.specs.Fields.{field_start, field_end, number_in};

use common::{BYTE_VALUES, two_bytes, wide};

// Where a field's bytes start and end.
#[derive(Clone, Copy)]
pub struct Field {
    pub start: usize,
    pub end: usize,
}

// The field at `at`; where the input ends first, what is left of it.
#[tactic(auto, unfolding(crate::specs::Fields::field_start, crate::specs::Fields::field_end))]
pub fn field_at(input: &[u8], at: usize) -> Field
    requires { at < length input.now }
    ensures start_value { (result.start ≡ field_start input.now at) × (result.end ≡ field_end input.now at) }
    ensures at_lt_end { (at < result.end) × (result.start ≤ result.end) × (result.end ≤ length input.now) }
{
    let left = input.len() - at;
    if left < 2 {
        return Field {
            start: input.len(),
            end: input.len(),
        };
    }
    let size = two_bytes(input, at);
    if left - 2 < size {
        return Field {
            start: at + 2,
            end: input.len(),
        };
    }
    Field {
        start: at + 2,
        end: at + 2 + size,
    }
}

// The field at `at`; an empty one where the input ends.
pub fn field_from(input: &[u8], at: usize) -> Field
    requires { at ≤ length input.now }
    ensures within { (at ≤ result.end) × (result.start ≤ result.end) × (result.end ≤ length input.now) }
    ensures value { at < length input.now → (result.start ≡ field_start input.now at) × (result.end ≡ field_end input.now at) }
    ensures empty { at ≡ length input.now → (result.start ≡ at) × (result.end ≡ at) }
{
    if at == input.len() {
        return Field { start: at, end: at };
    }
    field_at(input, at)
}

// The bytes of a field.
pub fn bytes_of<'a>(input: &'a [u8], field: Field) -> &'a [u8]
    requires { (field.start ≤ field.end) × (field.end ≤ length input.now) }
    ensures { result.now ≡ slice_range input.now field.start field.end }
{
    let start = field.start;
    let end = field.end;
    &input[start..end]
}

// The number that a field has: up to three bytes, low byte first.
pub fn number_of(input: &[u8], field: Field) -> usize
    requires { (field.start ≤ field.end) × (field.end ≤ length input.now) }
    ensures { result ≡ number_in (slice_range input.now field.start field.end) }
{
    let bytes = bytes_of(input, field);
    wide(byte_at(bytes, 0))
        + BYTE_VALUES * (wide(byte_at(bytes, 1)) + BYTE_VALUES * wide(byte_at(bytes, 2)))
}

// The byte at `at`; 0 behind the last one.
fn byte_at(bytes: &[u8], at: usize) -> u8
    ensures { result ≡ get_or bytes.now at 0 }
{
    if at < bytes.len() {
        return bytes[at];
    }
    0
}
