//! A worked chain, from its opening to its end: three nodes are inserted, one is marked and unlinked, and the
//! rest is frozen; or one of the three is replaced (`specs/Worked.antt`). Each state shows what the laws say of it.
ghost use Rattle.std.specs.Prelude.{◌≡◌, [], ◌∷◌};
ghost use Rattle.packed_link.specs.Link.{nowhere};
ghost use Rattle.core_chain.specs.Chain.{Head, IsChain, Next};
ghost use Rattle.core_chain.specs.Met.{IsMet};
ghost use Rattle.core_chain.specs.Steps.{Freezes, Inserts, IsFrozenTo, Marks, Replaces, SetsMark, Unlinks, Untouched};
ghost use Rattle.core_chain.specs.Walk.{Passes};
ghost use Rattle.core_chain.specs.Worked.{opened_chain, first_filled, first_inserted, second_filled, second_inserted};
ghost use Rattle.core_chain.specs.Worked.{fourth_filled, four_replaced, third_filled, third_inserted, seven_marked};
ghost use Rattle.core_chain.specs.Worked.{seven_unlinked};
ghost use Rattle.core_chain.specs.Worked.{head_marked, two_frozen, four_frozen};
ghost use Rattle.core_chain.specs.Worked.{astray, doubled, falling, lost};

/// The worked chain: what is met in each state, and which step leads to it.
pub fn a_worked_chain()
    ensures opens { IsMet opened_chain [] }
    ensures fills { Untouched opened_chain first_filled }
    ensures inserts { Inserts first_filled first_inserted Head 7 }
    ensures fills_second { Untouched first_inserted second_filled }
    ensures inserts_at_the_head { Inserts second_filled second_inserted Head 2 }
    ensures fills_third { Untouched second_inserted third_filled }
    ensures inserts_at_the_end { Inserts third_filled third_inserted (Next 7) 4 }
    ensures all_met { IsMet third_inserted (2 ∷ 7 ∷ 4 ∷ []) }
    ensures between { Passes third_inserted (Next 2) 15 }
    ensures fills_fourth { Untouched third_inserted fourth_filled }
    ensures replaces { Replaces fourth_filled four_replaced 4 9 }
    ensures replaced_met { IsMet four_replaced (2 ∷ 7 ∷ 4 ∷ 9 ∷ []) }
    ensures marks { Marks third_inserted seven_marked 7 }
    ensures marked_met { IsMet seven_marked (2 ∷ 7 ∷ 4 ∷ []) }
    ensures unlinks { Unlinks seven_marked seven_unlinked (Next 2) 7 }
    ensures unlinked_met { IsMet seven_unlinked (2 ∷ 4 ∷ []) }
    ensures past { Passes seven_unlinked (Next 2) 20 }
    ensures freezes_head { SetsMark seven_unlinked head_marked Head }
    ensures freezes_two { Freezes head_marked two_frozen Head 2 }
    ensures freezes_four { Freezes two_frozen four_frozen (Next 2) 4 }
    ensures ends { IsFrozenTo four_frozen (Next 4) }
    ensures leads_no_further { four_frozen.next (Next 4) ≡ nowhere }
    ensures frozen_met { IsMet four_frozen (2 ∷ 4 ∷ []) }
{}

/// Four that are no chains: keys fall, nothing leads to a node, a link leads off the chain, and two nodes have one
/// key.
pub fn no_chains()
    ensures falling { IsChain falling → ⊥ }
    ensures lost { IsChain lost → ⊥ }
    ensures astray { IsChain astray → ⊥ }
    ensures doubled { IsChain doubled → ⊥ }
{}
