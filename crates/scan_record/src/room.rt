//! A push that takes no memory.
//!
//! Each vector of a scan is made with all the room that it will need, and no call lets it hold more items than
//! there are nodes: `HasRoom` of `specs/Storage.antt`.

ghost use Rattle.std.specs.Prelude.{◌≡◌, ◌<◌, ◌≤◌, [], ◌∷◌, ◌++◌, vec_len, vec_capacity};

/// Adds an item at the end of a vector that has room for it, in O(1).
pub fn put<T: Drop>(items: &mut Vec<T>, item: T)
    requires { vec_len items.old < vec_capacity items.old }
    ensures items { items.new.items ≡ items.old.items ++ item ∷ [] }
    ensures room { vec_capacity items.old ≤ vec_capacity items.new }
{
    match items.push(item) {
        Ok(()) => {}
        Err(_) => unreachable!(),
    }
}
