//! Rows that are made from a number.
//!
//! A linear congruential generator (Lehmer 1951; the constants are those of the C standard's example of `rand`, with
//! the state kept to 31 bits) gives two draws for each row. The callers take turns, and each uses 32 keys of its own,
//! so that no two callers ever meet on a key. The rows are `made_rows` of `specs/Generator.antt`.

ghost use Rattle.std.specs.Prelude.{ℕ, ◌≡◌, ◌≤◌, ◌<◌, ◌+◌, ◌*◌, ◌/◌, ◌%◌, ◌^◌, ◌∷◌, [], All, Contains, IfOk};
ghost use Rattle.std.specs.Prelude.{codes, length, map, vec_len};
ghost use Rattle.std.specs.List.{range_with_len};
ghost use Rattle.graph_kinds.specs.Answer.{plain};
ghost use Rattle.graph_kinds.specs.declared.call.Row.{Row};
ghost use Rattle.graph_kinds.specs.declared.call.Call.{Call};
ghost use Rattle.graph_kinds.specs.declared.outcome.Outcome.{Outcome};
ghost use Rattle.op_text.specs.Generator.{NamesOwnKeys, draw, drawn_call, kind_by_remainder, made_rows};
ghost use Rattle.op_text.specs.RowText.{IsRowFor, call_keys, row_text};
ghost use Rattle.op_text.specs.Rows.{most_rows};
ghost use Rattle.op_text.specs.Summary.{summary_by};

use crate::rows::CallKind;
use graph_kinds::{Call, Memory, Row};
use std::alloc::Global;

/// The next draw: it moves the state on, and is the upper bits of the new one.
fn next_draw(state: &mut u32) -> u32
    requires { state.old < 2 ^ 31 }
    ensures state { state.new ≡ (1103515245 * state.old + 12345) % 2 ^ 31 }
    ensures draw { result ≡ state.new / 65536 }
{
    *state = ((1_103_515_245 * *state as u64 + 12_345) % (1 << 31)) as u32;
    *state / 65_536
}

/// The kind of call of a remainder modulo 16.
fn kind_of_remainder(remainder: u32) -> CallKind
    ensures { result ≡ kind_by_remainder remainder }
{
    match remainder {
        0..=4 => CallKind::AddVertex,
        5 => CallKind::RemoveVertex,
        6 => CallKind::HasVertex,
        7..=10 => CallKind::AddEdge,
        11 => CallKind::RemoveEdge,
        12 => CallKind::HasEdge,
        13 => CallKind::Reach,
        14 => CallKind::Levels,
        _ => CallKind::Cheapest,
    }
}

/// The call of a caller by two draws.
fn call_of_draws(caller: u32, first: u32, second: u32) -> Call
    requires { caller < 16 }
    ensures { result ≡ drawn_call caller first second }
{
    let base = 1_000 * caller;
    kind_of_remainder(first % 16).call(
        base + second % 32,
        base + second / 32 % 32,
        1 + second / 1_024,
    )
}

/// The rows that are made from a number, for so many callers: the same numbers always give the same rows. O(rows).
///
/// # Errors
/// `Memory` where there is no room for the rows.
pub fn make_rows(alloc: Global, number: u32, rows: u32, callers: u32) -> Result<Vec<Row>, Memory>
    requires number { number < 2 ^ 31 }
    requires rows { rows ≤ most_rows }
    requires some { 1 ≤ callers }
    requires callers { callers ≤ 16 }
    ensures made { IfOk result (λ v. v.items ≡ made_rows number rows callers) }
    ensures count { IfOk result (λ v. vec_len v ≡ rows) }
{
    let mut made = Vec::new(alloc);
    let mut state = number;
    for index in 0..rows {
        let caller = index % callers;
        let first = next_draw(&mut state);
        let second = next_draw(&mut state);
        let call = call_of_draws(caller, first, second);
        if made.push(Row { caller, call }).is_err() {
            return Err(Memory);
        }
    }
    Ok(made)
}

/// The laws of made rows. There are as many as were asked for; they are rows that an input for these callers may
/// have; each names keys of its caller alone, so a key stands in rows of one caller only. O(1): it does nothing.
pub fn made_rows_keep_apart()
    ensures count { (number count callers : ℕ) → length (made_rows number count callers) ≡ count }
    ensures valid { (number count callers : ℕ) → 1 ≤ callers → callers ≤ 16
        → All (IsRowFor callers) (made_rows number count callers) }
    ensures own { (number count callers : ℕ) → All NamesOwnKeys (made_rows number count callers) }
    ensures apart { (number count callers : ℕ) (p q : Row) (key : ℕ)
        → Contains (made_rows number count callers) p → Contains (made_rows number count callers) q
        → Contains (call_keys p.call) key → Contains (call_keys q.call) key → p.caller ≡ q.caller }
{}

/// The first eight draws from the number 1; the four rows that are made of them for two callers, with their lines; and
/// the summary of these rows, of which two add a vertex. O(1): it does nothing.
pub fn first_rows_are_known()
    ensures draws { map (draw 1) (range_with_len 0 8)
        ≡ 16838 ∷ 5758 ∷ 10113 ∷ 17515 ∷ 31051 ∷ 5627 ∷ 23010 ∷ 7419 ∷ [] }
    ensures rows { made_rows 1 4 2 ≡ record { caller = 0; call = Call.HasVertex 30 }
        ∷ record { caller = 1; call = Call.AddVertex 1011 }
        ∷ record { caller = 0; call = Call.RemoveEdge 27 15 }
        ∷ record { caller = 1; call = Call.AddVertex 1027 } ∷ [] }
    ensures lines { row_text (made_rows 1 4 2)
        ≡ codes "0,has-vertex,30,,\n1,add-vertex,1011,,\n0,remove-edge,27,15,\n1,add-vertex,1027,,\n" }
    ensures summary { summary_by (made_rows 1 4 2) 2
        (plain Outcome.No ∷ plain Outcome.Added ∷ plain Outcome.NoVertex ∷ plain Outcome.Added ∷ []) 2 0
        ≡ codes "rows 4\ncallers 2\nadded 2\nremoved 0\nvertices 2\nedges 0\nconserved yes\n" }
{}

#[cfg(test)]
mod tests;
