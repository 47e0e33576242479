//! Numbers in decimal.
//!
//! The digits are made from the last one to the first, at the end of 20 bytes, which hold any u64.

ghost use Rattle.std.specs.Prelude.{◌≡◌, ◌≤◌, OnOk, OnErr, drop};
ghost use Rattle.std.specs.Fmt.{decimal};
ghost use Rattle.graph_kinds.specs.Stream.{Rose, Puts, PutsSome};
ghost use Rattle.op_text.specs.Gives.{Gives};

use crate::write::{WriteFailed, give_text};
use graph_kinds::Sink;

/// Gives the sink the number in decimal, without leading zeros. O(digits), takes no memory.
///
/// # Errors
/// `WriteFailed` only where the sink's count of faults rose; what the sink took is a prefix of the digits.
pub fn write_number<K: Sink>(sink: &mut K, number: u64) -> Result<(), WriteFailed>
    ensures ok { OnOk result (Puts (K.taken sink.old) (K.taken sink.new) (decimal number)) }
    ensures prefix { OnErr result (PutsSome (K.taken sink.old) (K.taken sink.new) (decimal number)) }
    ensures rose { OnErr result (Rose (K.faults sink.old) (K.faults sink.new)) }
    ensures faults { K.faults sink.old ≤ K.faults sink.new }
{
    give_number(sink, number)
}

/// `write_number` with its contract in one record, for the functions that write a line piece by piece. O(digits).
pub(crate) fn give_number<K: Sink>(sink: &mut K, number: u64) -> Result<(), WriteFailed>
    ensures { Gives K.taken K.faults sink.old sink.new (decimal number) result }
{
    let mut digits = [0; 20];
    let start = put_digits(number, &mut digits);
    give_text(sink, &digits[start..])
}

/// Puts the digits of the number at the end, and gives where they start.
fn put_digits(number: u64, digits: &mut [u8; 20]) -> usize
    ensures bound { result ≤ 20 }
    ensures value { drop result digits.new ≡ decimal number }
{
    let mut start = 20;
    let mut rest = number;
    while rest >= 10 {
        start -= 1;
        digits[start] = b'0' + (rest % 10) as u8;
        rest /= 10;
    }
    start -= 1;
    digits[start] = b'0' + rest as u8;
    start
}
