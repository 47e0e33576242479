//! The numbers that fields write: `0`, or a digit 1 to 9 followed by digits, of at most 4294967295.
//!
//! A field is read digit by digit, and the value so far is that of the digits so far; a value that no
//! longer fits ends the reading. The definition is `number_of` of `specs/Rows.antt`.

ghost use Rattle.std.specs.Prelude.{◌≡◌, ℕ, ◌<◌, ◌^◌, ◌↔◌, IsTrue, List, Some, cond, length, slice_index};
ghost use Rattle.std.specs.Fmt.{decimal};
ghost use Rattle.op_text.specs.Rows.{number_of};

// Whether a zero stands before other bytes of a field.
fn has_leading_zero(field: &[u8]) -> bool
    ensures { IsTrue result ↔ ((1 < length field.now) × (slice_index field.now 0 ≡ 48)) }
{
    field.len() > 1 && field[0] == b'0'
}

/// The number that a field writes, if it writes one. O(bytes).
pub fn number(field: &[u8]) -> Option<u32>
    ensures { result ≡ number_of field.now }
{
    if field.is_empty() || has_leading_zero(field) {
        return None;
    }
    let mut value: u32 = 0;
    for byte in field {
        if !byte.is_ascii_digit() {
            return None;
        }
        value = value.checked_mul(10)?.checked_add((*byte - b'0') as u32)?;
    }
    Some(value)
}

/// The number of a field that is needed, or 0 where it isn't. O(bytes).
pub fn number_if(needed: bool, field: &[u8]) -> Option<u32>
    ensures { result ≡ cond needed (number_of field.now) (Some 0) }
{
    if needed { number(field) } else { Some(0) }
}

/// The law of numbers: a field writes a number exactly where it is the number's decimal text, and the
/// number is below 2^32. O(1): it does nothing.
pub fn numbers_are_decimal()
    ensures { (field : List ℕ) (n : ℕ) → (number_of field ≡ Some n) ↔ ((field ≡ decimal n) × (n < 2 ^ 32)) }
{}
