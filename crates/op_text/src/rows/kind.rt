//! The kinds of calls: their names in an input, and what each needs beside its first key.
//!
//! The table is `operation` of `specs/Rows.antt`.

ghost use Rattle.std.specs.Prelude.{◌≡◌, ◌≤◌, option_map, true};
ghost use Rattle.graph_kinds.specs.Answer.{IsWellMade};
ghost use Rattle.op_text.specs.Rows.{operation, operation_of};

use graph_kinds::Call;

/// The kind of a call.
#[derive(Drop, Clone, Copy)]
pub enum CallKind {
    AddVertex,
    RemoveVertex,
    HasVertex,
    AddEdge,
    RemoveEdge,
    HasEdge,
    Reach,
    Levels,
    Cheapest,
}

impl CallKind {
    /// The kind of call of an operation's name, if one has it. O(bytes of the name).
    pub fn of_name(name: &[u8]) -> Option<CallKind>
        ensures { option_map operation result ≡ operation_of name.now }
    {
        if name == b"add-vertex".as_slice() {
            Some(CallKind::AddVertex)
        } else if name == b"remove-vertex".as_slice() {
            Some(CallKind::RemoveVertex)
        } else if name == b"has-vertex".as_slice() {
            Some(CallKind::HasVertex)
        } else if name == b"add-edge".as_slice() {
            Some(CallKind::AddEdge)
        } else if name == b"remove-edge".as_slice() {
            Some(CallKind::RemoveEdge)
        } else if name == b"has-edge".as_slice() {
            Some(CallKind::HasEdge)
        } else if name == b"reach".as_slice() {
            Some(CallKind::Reach)
        } else if name == b"levels".as_slice() {
            Some(CallKind::Levels)
        } else if name == b"cheapest".as_slice() {
            Some(CallKind::Cheapest)
        } else {
            None
        }
    }

    /// Whether the call needs a second key beside the first. O(1).
    pub fn needs_second(self) -> bool
        ensures { result ≡ (operation self).needs_second }
    {
        match self {
            CallKind::AddVertex | CallKind::RemoveVertex | CallKind::HasVertex | CallKind::Levels =>
                false,
            CallKind::AddEdge
            | CallKind::RemoveEdge
            | CallKind::HasEdge
            | CallKind::Reach
            | CallKind::Cheapest => true,
        }
    }

    /// Whether the call needs a weight. O(1).
    pub fn needs_weight(self) -> bool
        ensures { result ≡ (operation self).needs_weight }
    {
        match self {
            CallKind::AddEdge => true,
            _ => false,
        }
    }

    /// The call on these keys, with this weight; what the kind doesn't need is left out. O(1).
    pub fn call(self, first: u32, second: u32, weight: u32) -> Call
        ensures call { result ≡ (operation self).call first second weight }
        ensures well_made { ((operation self).needs_weight ≡ true → 1 ≤ weight) → IsWellMade result }
    {
        match self {
            CallKind::AddVertex => Call::AddVertex { key: first },
            CallKind::RemoveVertex => Call::RemoveVertex { key: first },
            CallKind::HasVertex => Call::HasVertex { key: first },
            CallKind::AddEdge => Call::AddEdge {
                from: first,
                to: second,
                weight,
            },
            CallKind::RemoveEdge => Call::RemoveEdge {
                from: first,
                to: second,
            },
            CallKind::HasEdge => Call::HasEdge {
                from: first,
                to: second,
            },
            CallKind::Reach => Call::Reach {
                from: first,
                to: second,
            },
            CallKind::Levels => Call::Levels { from: first },
            CallKind::Cheapest => Call::Cheapest {
                from: first,
                to: second,
            },
        }
    }
}
