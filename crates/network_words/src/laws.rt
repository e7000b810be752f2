ghost use Rattle.std.specs.Prelude.{◌≡◌};
ghost use Rattle.network_words.specs.Laws.{EdgesAreInOrder, EachNumberHasAnEdge, NoNumberHasTwoEdges};
ghost use Rattle.network_words.specs.Laws.{EveryEdgeClosedIsClosed, EmptyEmptiesAll, ClosureExists, ClosureIsUnique};
ghost use Rattle.network_words.specs.Laws.{KeepingClosedGivesClosure, BetweenHasSameClosure, ClosureMeetsFacts};
ghost use Rattle.network_words.specs.Laws.{AppendedFactsNarrow, ScenarioIsClosed, ClosedSinglesAreScenario};
ghost use Rattle.network_words.specs.Laws.{ScenarioIsOfClosure};

use crate::MAX_NODES;

/// The laws of networks, which hold in every calculus.
pub fn laws_of_networks()
    ensures limit { MAX_NODES ≡ 256 }
    ensures edges_are_in_order { EdgesAreInOrder }
    ensures each_number_has_an_edge { EachNumberHasAnEdge }
    ensures no_number_has_two_edges { NoNumberHasTwoEdges }
    ensures every_edge_closed_is_closed { EveryEdgeClosedIsClosed }
    ensures empty_empties_all { EmptyEmptiesAll }
    ensures closure_exists { ClosureExists }
    ensures closure_is_unique { ClosureIsUnique }
    ensures keeping_closed_gives_closure { KeepingClosedGivesClosure }
    ensures between_has_same_closure { BetweenHasSameClosure }
    ensures closure_meets_facts { ClosureMeetsFacts }
    ensures appended_facts_narrow { AppendedFactsNarrow }
    ensures scenario_is_closed { ScenarioIsClosed }
    ensures closed_singles_are_scenario { ClosedSinglesAreScenario }
    ensures scenario_is_of_closure { ScenarioIsOfClosure }
{}
