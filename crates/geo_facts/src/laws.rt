//! Laws of polygon files, of relations and facts, and of the networks of demonstrations.
ghost use Rattle.geo_facts.specs.Relating.{OnePatternFits};
ghost use Rattle.geo_facts.specs.Laws.{FileIsOne, FaultIsOne, FileHasNoFault, FileHasAnswer};
ghost use Rattle.geo_facts.specs.Laws.{Rcc8IsOne, FactsAreOne, FactsAreProper};
ghost use Rattle.geo_facts.specs.Laws.{FactFaultIsOne, NodesHaveNoFault};
ghost use Rattle.geo_facts.specs.Laws.{DemoIsOne, DemoIsNetwork};

/// A text has one answer, out of memory aside: it is the file of one list of polygons, or it has one fault.
pub fn polygon_file_has_one_answer()
    ensures one { FileIsOne }
    ensures fault { FaultIsOne }
    ensures none { FileHasNoFault }
    ensures answer { FileHasAnswer }
{}

/// Each matrix meets the pattern of just one base relation, its own.
pub fn matrix_has_one_relation()
    ensures { OnePatternFits }
{}

/// Two rings have one relation at most. In a network whose nodes' names differ, polygons have one list of facts at
/// most, with sets of RCC-8. One polygon at most is the first whose name is no node's, and none where all are nodes'.
pub fn laws_of_polygon_facts()
    ensures relation { Rcc8IsOne }
    ensures one { FactsAreOne }
    ensures proper { FactsAreProper }
    ensures fault { FactFaultIsOne }
    ensures none { NodesHaveNoFault }
{}

/// A seed and a number of nodes have one network at most, and one count of edges that aren't forgotten. The network has
/// a set of RCC-8 for each edge.
pub fn laws_of_demo_nets()
    ensures one { DemoIsOne }
    ensures network { DemoIsNetwork }
{}
