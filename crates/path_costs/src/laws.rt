//! Laws of a search by cost: each is a function that does nothing, and its contract is the law.

ghost use Rattle.std.specs.Prelude.{ℕ};
ghost use Rattle.scan_record.specs.Scan.{IsScan, IsComplete, ScanValue};
ghost use Rattle.path_costs.specs.Search.{IsOpen, IsSettledTree};

/// A search for a key may end where the key's row is settled. Each settled row has the least cost of a path to its key
/// and, but for row 0, the least key before its own as its parent's, whatever rows wait still and while no pair of the
/// row settled last has been followed. So the way back by parents is the cheapest path, whatever comes later.
pub fn cheapest_is_fixed_once_settled()
    ensures { (s : ScanValue) → IsScan s → IsComplete s → (last : ℕ) → IsOpen s last → IsSettledTree s }
{}
