//! The rows of an input.
//!
//! An input is a CSV text without a header; each record is one operation. The definition is `rows` of
//! `specs/Rows.antt`, over the records that the `csv` crate states for its default settings. The reading
//! keeps `IsReadSoFar` of `proofs/RowSteps.antt`: what the rows read so far and the records that are left
//! give together is what the whole input gives.

ghost use Rattle.std.specs.Prelude.{◌≡◌, ◌≢◌, ◌<◌, ◌≤◌, All, IfOk, IfSome, IfNone, OnOk, Ok, Err, Some, [], ◌∷◌, ◌+◌};
ghost use Rattle.std.specs.Prelude.{length, vec_len};
ghost use Rattle.csv.specs.Records.{field_at, fields_of};
ghost use Rattle.graph_kinds.specs.Answer.{IsWellMade};
ghost use Rattle.op_text.specs.Rows.{most_rows, operation, row_by, row_of, rows};
ghost use Rattle.op_text.specs.Faults.{IfBad};

mod kind;
mod numeral;

use csv::{ByteRecord, ErrorKind, ReaderBuilder};
use graph_kinds::Row;
pub(crate) use kind::CallKind;
pub use numeral::numbers_are_decimal;
use numeral::{number, number_if};
use std::alloc::Global;

/// The most rows of an input.
pub const MOST_ROWS: u32 = 65_536;

/// Why a record is no row. The tests are made in the order TooManyRows, FieldCount, BadCaller,
/// UnknownOp, MissingField, ExtraField, BadNumber, ZeroWeight, and the first that fails gives the cause.
#[derive(Debug, Drop, Clone, Copy, PartialEq, Eq)]
pub enum RowCause {
    /// It hasn't five fields.
    FieldCount,
    /// Its caller isn't a number below the number of callers.
    BadCaller,
    /// Its operation is none of those that are read.
    UnknownOp,
    /// A needed field isn't a number.
    BadNumber,
    /// A needed field is empty.
    MissingField,
    /// A field that must be empty isn't.
    ExtraField,
    /// The weight of an edge to be added is 0.
    ZeroWeight,
    /// It is the record of number 65,537.
    TooManyRows,
}

/// Why an input gave no rows.
#[derive(Debug, Drop, Clone, Copy, PartialEq, Eq)]
pub enum RowsFault {
    /// The first bad record, by its number counted from 1, and why it is no row.
    Bad { row: u32, cause: RowCause },
    /// Memory ran out.
    Memory,
}

// The row of a kind of call for a caller, with the three fields after the operation's name.
fn row_of_kind(
    kind: CallKind,
    caller: u32,
    first: &[u8],
    second: &[u8],
    weight: &[u8],
) -> Result<Row, RowCause>
    ensures row { result ≡ row_by (operation kind) caller first.now second.now weight.now }
    ensures caller { IfOk result (λ r. r.caller ≡ caller) }
    ensures well_made { IfOk result (λ r. IsWellMade r.call) }
{
    let needs_second = kind.needs_second();
    let needs_weight = kind.needs_weight();
    if first.is_empty()
        || (needs_second && second.is_empty())
        || (needs_weight && weight.is_empty())
    {
        return Err(RowCause::MissingField);
    }
    if (!needs_second && !second.is_empty()) || (!needs_weight && !weight.is_empty()) {
        return Err(RowCause::ExtraField);
    }
    let (Some(from), Some(to), Some(weight)) = (
        number(first),
        number_if(needs_second, second),
        number_if(needs_weight, weight),
    ) else {
        return Err(RowCause::BadNumber);
    };
    if needs_weight && weight == 0 {
        return Err(RowCause::ZeroWeight);
    }
    Ok(Row {
        caller,
        call: kind.call(from, to, weight),
    })
}

// The field of a record at a place that it has.
fn field(csv_record: &ByteRecord, place: usize) -> &[u8]
    requires { place < length (fields_of csv_record.now) }
    ensures { field_at (fields_of csv_record.now) place ≡ Some result.now }
{
    let Some(bytes) = csv_record.get(place) else {
        unreachable!();
    };
    bytes
}

// The five fields of a record.
#[derive(Drop)]
struct Fields<'a> {
    caller: &'a [u8],
    name: &'a [u8],
    first: &'a [u8],
    second: &'a [u8],
    weight: &'a [u8],
}

impl<'a> Fields<'a> {
    // The fields of a record that has five.
    fn of_record(csv_record: &'a ByteRecord) -> Option<Fields<'a>>
        ensures five { IfSome result (λ f. fields_of csv_record.now
            ≡ f.caller.now ∷ f.name.now ∷ f.first.now ∷ f.second.now ∷ f.weight.now ∷ []) }
        ensures other { IfNone result (length (fields_of csv_record.now) ≢ 5) }
    {
        if csv_record.len() != 5 {
            return None;
        }
        Some(Fields {
            caller: field(csv_record, 0),
            name: field(csv_record, 1),
            first: field(csv_record, 2),
            second: field(csv_record, 3),
            weight: field(csv_record, 4),
        })
    }
}

// The row of a record with this number, counted from 1.
fn row_of_record(callers: u32, row_number: u32, csv_record: &ByteRecord) -> Result<Row, RowCause>
    ensures row { result ≡ row_of callers row_number (fields_of csv_record.now) }
    ensures caller { IfOk result (λ r. r.caller < callers) }
    ensures well_made { IfOk result (λ r. IsWellMade r.call) }
    ensures most { OnOk result (row_number ≢ most_rows + 1) }
{
    if row_number == MOST_ROWS + 1 {
        return Err(RowCause::TooManyRows);
    }
    let Some(fields) = Fields::of_record(csv_record) else {
        return Err(RowCause::FieldCount);
    };
    match number(fields.caller) {
        Some(caller) if caller < callers => match CallKind::of_name(fields.name) {
            Some(kind) => row_of_kind(kind, caller, fields.first, fields.second, fields.weight),
            None => Err(RowCause::UnknownOp),
        },
        _ => Err(RowCause::BadCaller),
    }
}

/// The rows of an input for callers numbered below `callers`, in order. O(bytes): each record is read
/// once, into the same room, and none after the first bad one.
///
/// # Errors
/// `Bad` exactly where a record is bad, with the number and the cause of the first one; `Memory` where
/// there is no room for a record or for the rows.
pub fn read_rows(alloc: Global, bytes: &[u8], callers: u32) -> Result<Vec<Row>, RowsFault>
    ensures ok { IfOk result (λ v. rows callers bytes.now ≡ Ok v.items) }
    ensures bad { IfBad result (λ row cause. rows callers bytes.now ≡ Err (row, cause)) }
    ensures well_made { IfOk result (λ v. All (λ r. IsWellMade r.call) v.items) }
    ensures callers { IfOk result (λ v. All (λ r. r.caller < callers) v.items) }
    ensures most { IfOk result (λ v. vec_len v ≤ most_rows) }
{
    let mut reader = ReaderBuilder::new()
        .has_headers(false)
        .flexible(true)
        .from_reader(alloc, bytes);
    let mut record = ByteRecord::new(alloc);
    let mut read = Vec::new(alloc);
    for number in 1..=MOST_ROWS + 1 {
        match reader.read_byte_record(&mut record) {
            Ok(true) => {}
            Ok(false) => return Ok(read),
            Err(e) => match e.kind() {
                ErrorKind::Io(_) | ErrorKind::OutOfMemory => return Err(RowsFault::Memory),
                // Records may have any number of fields, and fields any bytes.
                _ => unreachable!(),
            },
        }
        match row_of_record(callers, number, &record) {
            Ok(row) => {
                if read.push(row).is_err() {
                    return Err(RowsFault::Memory);
                }
            }
            Err(cause) => return Err(RowsFault::Bad { row: number, cause }),
        }
    }
    // The record of number 65,537 is bad, whatever it is.
    unreachable!()
}

#[cfg(test)]
mod tests;
