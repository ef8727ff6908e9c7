//! What is true of all trees, each law the contract of a function that does nothing.

ghost use Rattle.term_model.specs.Laws.{TreeOfPostorder, PostorderOfTree, ItemsOfNode, ItemsAreNodes, EqualityIsExact, AmongIsExact, TreesAreSubtrees, SubtreesNest, ArgumentsAreSubtrees, ArgumentsHaveFewerNodes, SubtreesHaveNoMoreNodes, SubtreesAreWellFormed, SubtreesAreGround, DistinctWithoutRepetition, DistinctOfPart, DistinctInAnyOrder, DistinctIsBounded, ClosedHoldsSubtrees};

/// Postorder and the tree of a list of items are inverse.
pub fn postorder_laws()
    ensures back { TreeOfPostorder }
    ensures only { PostorderOfTree }
    ensures node { ItemsOfNode }
    ensures size { ItemsAreNodes }
{}

/// Trees are compared by a test.
pub fn equality_laws()
    ensures equality { EqualityIsExact }
    ensures membership { AmongIsExact }
{}

/// Subtrees, and how large they are.
pub fn subtree_laws()
    ensures itself { TreesAreSubtrees }
    ensures nest { SubtreesNest }
    ensures arguments { ArgumentsAreSubtrees }
    ensures fewer { ArgumentsHaveFewerNodes }
    ensures no_more { SubtreesHaveNoMoreNodes }
    ensures well_formed { SubtreesAreWellFormed }
    ensures ground { SubtreesAreGround }
    ensures closed { ClosedHoldsSubtrees }
{}

/// How many different trees a list has.
pub fn distinct_laws()
    ensures all_differ { DistinctWithoutRepetition }
    ensures part { DistinctOfPart }
    ensures order { DistinctInAnyOrder }
    ensures bound { DistinctIsBounded }
{}
