//! An answer that was gathered from its end.

ghost use Rattle.std.specs.Prelude.{◌≡◌, ◌<◌, ◌≤◌, [], length, reverse, take};
ghost use Rattle.scan_record.specs.Scan.{slot_of};

use crate::scan::Scan;

/// Writes the first numbers in a slot of the work room as the answer's keys, the last of them first. Takes no
/// memory, in O(count and what the answer held).
pub fn write_back(scan: &mut Scan, slot: u32, count: u32)
    requires slot { slot < 3 }
    requires count { count ≤ length scan.old.rows }
    ensures { scan.new ≡ record scan.old { keys = reverse (take count (slot_of scan.old slot)); ends = [] } }
{
    prove!(count <= scan.vertices());
    scan.clear_answer();
    let mut left = count;
    while left > 0 {
        left -= 1;
        scan.put_key(scan.work(left, slot));
    }
}
