//! A worked run of two callers, one in which the epoch moves on without a check (`specs/Worked.antt`), and a worked
//! free list of two nodes (`specs/WorkedPool.antt`).
ghost use Rattle.std.specs.Prelude.{◌≡◌, ◌≢◌, ℕ, ◌+◌, ◌<◌, ◌≤◌, true, [], ◌∷◌};
ghost use Rattle.packed_link.specs.Link.{index_of, tag_of};
ghost use Rattle.core_epoch.specs.Run.{IsRunOf};
ghost use Rattle.core_epoch.specs.Clock.{IsNear};
ghost use Rattle.core_epoch.specs.Steps.{IsFoundClear};
ghost use Rattle.core_epoch.specs.Ends.{Follows, IsNewMoment};
ghost use Rattle.core_epoch.specs.Free.{Change, IsNewPool};
ghost use Rattle.core_epoch.specs.Worked.{five_unlinked, moved, one_announced, opened};
ghost use Rattle.core_epoch.specs.Worked.{third_moved, unchecked, node_unlinked, worked, zero_announced};
ghost use Rattle.core_epoch.specs.WorkedPool.{both_free, worked_pool, zero_given, zero_taken};

/// The worked run: it begins with no open pass and each step is one that the epoch allows. Node 5 ended after caller
/// 0's first pass began; it's given back when the only open pass was announced after that end.
pub fn a_worked_run()
    ensures opens { IsNewMoment 2 opened }
    ensures runs { IsRunOf (Follows 2) opened worked }
    ensures is_checked { IsFoundClear 0 0 zero_announced.clock }
    ensures old_epoch { one_announced.clock.word 1 ≡ 1 }
    ensures born_later { one_announced.clock.birth 1 ≡ 1 }
    ensures may_be_met { five_unlinked.clock.since 0 < five_unlinked.ends.ended 5 }
    ensures is_ripe { third_moved.ends.epoch 5 + 2 ≤ third_moved.clock.epoch }
    ensures open_pass { third_moved.clock.is_open 0 ≡ true }
    ensures began_later { third_moved.ends.ended 5 ≤ third_moved.clock.since 0 }
{}

/// Where the epoch moves on without a check, an open pass is two epochs behind, and a node looks ripe that ended after
/// that pass began.
pub fn an_unchecked_move_is_unsafe()
    ensures is_found { IsFoundClear 1 0 (moved (node_unlinked 5 zero_announced)).clock → ⊥ }
    ensures far { IsNear unchecked.clock → ⊥ }
    ensures open_pass { unchecked.clock.is_open 0 ≡ true }
    ensures looks_ripe { unchecked.ends.epoch 5 + 2 ≤ unchecked.clock.epoch }
    ensures may_be_met { unchecked.clock.since 0 < unchecked.ends.ended 5 }
{}

/// The worked free list: node 0 is taken, written and given back. The word then leads to node 0 as it did before, and
/// its tag tells the two apart.
pub fn a_worked_free_list()
    ensures opens { IsNewPool 2 both_free }
    ensures runs { IsRunOf (Change 2) both_free worked_pool }
    ensures taken { zero_taken.free ≡ 1 ∷ [] }
    ensures same_node { index_of zero_given.first ≡ index_of both_free.first }
    ensures other_word { zero_given.first ≢ both_free.first }
    ensures counted { tag_of zero_given.first ≡ 2 }
{}
