//! Worked rows, which the definitions compute: each the contract of a function that does nothing.

ghost use Rattle.rewrite_model.specs.Rows.{OneAndOne, OneUseIsTooFew, RoomSix, RoomFive, OneAndOneBuilds, OneAndOneNeeds, FourTermsBuild, Twice, Guarded, AsksForItself, FirstRule, Products, OutermostEnds, OutermostSums, OutermostBuilds};
ghost use Rattle.rewrite_model.specs.OrderRows.{ArgumentsFromLeft, RightSideFromLeft, FirstEndEndsAll, FirstSideFirst, FailureEndsConditions, HoldingGoesOn, HeadsAreTold, CellsAreRewritten};
ghost use Rattle.rewrite_model.specs.RoomRows.{LeastRoom, VariableOnTheRight, VariableInNoRoom, RightSideOfTwo, TailInWholeRoom, RoomForVariables, FuelBeforeRoom, RoomOfFirstSide, RoomOfSecondSide, RoomOfSidesOfTwo};
ghost use Rattle.rewrite_model.specs.HandRows.{EarlierArguments, BoundAtTheRightSide, BoundTreesAreLetGo, BoundRoundArguments, KeptInCondition};
ghost use Rattle.rewrite_model.specs.OutermostRows.{LeftmostFirst, RightSideInOneLess, RoomToBuildAgain, LeastRoom as LeastOutermostRoom, SecondArgumentInTwoLess, FuelBeforeRoom as OutermostFuelBeforeRoom, CellsAreRewritten as CellsAreRewrittenOutermost};
ghost use Rattle.rewrite_model.specs.TraceRows.{OneAndOneIsTraced, FewestMoves, ArgumentsFirst, OnlyWhereItMatches, StaysOnTheTerm, NoRoomForTheRule, NoRoomOnTheRight};

/// Small specifications, their terms, and what comes of them.
pub fn worked_rows()
    ensures value { OneAndOne }
    ensures fuel { OneUseIsTooFew }
    ensures room { RoomSix }
    ensures too_deep { RoomFive }
    ensures built { OneAndOneBuilds }
    ensures need { OneAndOneNeeds }
    ensures many { FourTermsBuild }
    ensures twice { Twice }
    ensures guarded { Guarded }
    ensures asks_for_itself { AsksForItself }
    ensures first_rule { FirstRule }
    ensures products { Products }
    ensures outermost { OutermostEnds }
    ensures outermost_sums { OutermostSums }
    ensures outermost_built { OutermostBuilds }
{}

/// The order of arguments and conditions, and all kinds of heads.
pub fn order_rows()
    ensures arguments { ArgumentsFromLeft }
    ensures right_side { RightSideFromLeft }
    ensures first_end { FirstEndEndsAll }
    ensures sides { FirstSideFirst }
    ensures failing_condition { FailureEndsConditions }
    ensures holding_condition { HoldingGoesOn }
    ensures heads { HeadsAreTold }
    ensures cells { CellsAreRewritten }
{}

/// The least room that serves, and the room that is one too little.
pub fn room_rows()
    ensures least { LeastRoom }
    ensures variable_on_the_right { VariableOnTheRight }
    ensures variable_in_no_room { VariableInNoRoom }
    ensures right_side_of_two { RightSideOfTwo }
    ensures tail { TailInWholeRoom }
    ensures variables { RoomForVariables }
    ensures fuel_before_room { FuelBeforeRoom }
    ensures first_side { RoomOfFirstSide }
    ensures second_side { RoomOfSecondSide }
    ensures sides_of_two { RoomOfSidesOfTwo }
{}

/// The trees in hand at each point, and the most of them.
pub fn hand_rows()
    ensures earlier_arguments { EarlierArguments }
    ensures bound_at_the_right_side { BoundAtTheRightSide }
    ensures bound_trees_are_let_go { BoundTreesAreLetGo }
    ensures bound_round_arguments { BoundRoundArguments }
    ensures in_a_condition { KeptInCondition }
{}

/// The order and the rooms of outermost evaluation.
pub fn outermost_rows()
    ensures leftmost { LeftmostFirst }
    ensures right_side { RightSideInOneLess }
    ensures build_again { RoomToBuildAgain }
    ensures least { LeastOutermostRoom }
    ensures second_argument { SecondArgumentInTwoLess }
    ensures fuel_before_room { OutermostFuelBeforeRoom }
    ensures cells { CellsAreRewrittenOutermost }
{}

/// The events of derivations, and what events lead to.
pub fn trace_rows()
    ensures one_and_one { OneAndOneIsTraced }
    ensures fewest_moves { FewestMoves }
    ensures arguments_first { ArgumentsFirst }
    ensures matches { OnlyWhereItMatches }
    ensures stays_on_the_term { StaysOnTheTerm }
    ensures no_room_for_the_rule { NoRoomForTheRule }
    ensures no_room_on_the_right { NoRoomOnTheRight }
{}
