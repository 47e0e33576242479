//! The ends of lives beside open passes: why a node is given back only after each pass that may have met it.
ghost use Rattle.std.specs.Prelude.{◌≡◌, ℕ, ◌+◌, ◌≤◌, List, true};
ghost use Rattle.core_epoch.specs.Run.{IsRunOf, last_of};
ghost use Rattle.core_epoch.specs.Clock.{Announcements, Clock, IsNear, IsNewClock};
ghost use Rattle.core_epoch.specs.Steps.{ClockStep};
ghost use Rattle.core_epoch.specs.Ends.{Ended, Ends, EndsSome, Follows, GivesOld, IsNewMoment, IsSafe, Moment, Ordered};

/// The law of the past: no life ended in the future, and each step keeps this.
pub fn ends_are_in_the_past()
    ensures { (callers : ℕ) (old new : Clock) (before after : Ends) → Ended old before
        → ClockStep callers old new → EndsSome old before after → Ended new after }
{}

/// The law of ends beside open passes: a life that ended after a pass began ended in the epoch of the pass's birth or
/// later, and a node that isn't spent had its last end before each open pass began. Each step keeps this, whoever
/// announces, whichever lives end, and where the epoch moves on; a spent node must be given back no sooner than two
/// epochs after its end.
pub fn ends_stand_beside_passes()
    ensures opening { (callers : ℕ) (clock : Clock) (ends : Ends) → IsNewClock callers clock → Ordered clock ends }
    ensures step { (callers : ℕ) (old new : Clock) (before after : Ends)
        → Announcements callers old → IsNear old → Ended old before → Ordered old before
        → ClockStep callers old new → EndsSome old before after → GivesOld old before after → Ordered new after }
{}

/// The law of ripe nodes: where a node's life ended in an epoch that is at most its stamp, and an epoch was shown that
/// is at least two above the stamp, that life ended before each open pass was announced.
pub fn a_ripe_node_ended_before_passes()
    ensures { (clock : Clock) (ends : Ends) (i x stamp shown : ℕ) → IsNear clock → Ordered clock ends
        → ends.epoch x ≤ stamp → stamp + 2 ≤ shown → shown ≤ clock.epoch → clock.is_open i ≡ true
        → ends.ended x ≤ clock.since i }
{}

/// The law of whole runs: from a moment on at which no pass was open, all of this holds after each step that the epoch
/// allows.
pub fn each_run_is_safe()
    ensures { (callers : ℕ) (first : Moment) (rest : List Moment) → IsNewMoment callers first
        → IsRunOf (Follows callers) first rest → IsSafe callers (last_of first rest) }
{}
