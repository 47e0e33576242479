//! The epoch and the passes of callers.
//!
//! A caller announces the epoch when it opens its pass, and whoever moves the epoch on first checks each announcement
//! (Fraser 2004). So an open pass is never more than one epoch behind, although an announced epoch may be older than
//! that.
ghost use Rattle.std.specs.Prelude.{◌≡◌, ℕ, ◌<◌, ◌≤◌, List, true};
ghost use Rattle.core_epoch.specs.Run.{IsRunOf, last_of};
ghost use Rattle.core_epoch.specs.Clock.{Announcements, Clock, IsClear, IsNear, IsNewClock};
ghost use Rattle.core_epoch.specs.Steps.{IsFoundClear, MovesClear, ClockStep};

/// The law of announcements: outside a pass the word is 0; in it the announced epoch is at most that of the pass's
/// birth, which is at most the epoch. This holds where no pass is open, and each step keeps it.
pub fn each_step_keeps_the_announcements()
    ensures opening { (callers : ℕ) (clock : Clock) → IsNewClock callers clock → Announcements callers clock }
    ensures step { (callers : ℕ) (old new : Clock)
        → Announcements callers old → ClockStep callers old new → Announcements callers new }
{}

/// The law of the epoch: it only rises, so an epoch that was loaded at some moment is at most that of each later one.
pub fn the_epoch_only_rises()
    ensures { (callers : ℕ) (first : Clock) (rest : List Clock)
        → IsRunOf (ClockStep callers) first rest → first.epoch ≤ (last_of first rest).epoch }
{}

/// The law of open passes: the epoch is at most one above that in which an open pass began. Each step keeps this, where
/// the epoch moves on only if each caller is clear of it.
pub fn passes_stay_near()
    ensures opening { (callers : ℕ) (clock : Clock) → IsNewClock callers clock → IsNear clock }
    ensures step { (callers : ℕ) (old new : Clock) → Announcements callers old → IsNear old
        → ClockStep callers old new → MovesClear callers old new → IsNear new }
{}

/// The law of the checks before the epoch moves on: a caller whose word was found to be 0, or one above an epoch that
/// is at least the one seen, at a moment at which the epoch seen was reached, is clear; and being clear is kept by each
/// step, whatever is announced in between. So the checks may be made one after the other, each once, after the epoch
/// was loaded.
pub fn a_checked_caller_is_clear()
    ensures found { (callers seen caller : ℕ) (clock : Clock) → Announcements callers clock → seen ≤ clock.epoch
        → IsFoundClear seen caller clock → IsClear seen caller clock }
    ensures step { (callers seen caller : ℕ) (old new : Clock)
        → IsClear seen caller old → ClockStep callers old new → IsClear seen caller new }
    ensures checks { (callers caller : ℕ) (loaded : Clock) (between later : List Clock)
        → Announcements callers loaded → IsRunOf (ClockStep callers) loaded between
        → IsFoundClear loaded.epoch caller (last_of loaded between)
        → IsRunOf (ClockStep callers) (last_of loaded between) later
        → IsClear loaded.epoch caller (last_of (last_of loaded between) later) }
{}
