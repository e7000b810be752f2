ghost use Rattle.refutation.specs.Laws.{RefutedHasNoScenario, RefutationHasNoFault, TreeFaultIsOne};
ghost use Rattle.refutation.specs.Laws.{RefutationOrFault, SweptLeavesAreBare};
ghost use Rattle.refutation.specs.Laws.{RuledStepsExist, RuledStepsAreOne, RuledStepsLeadToClosure};
ghost use Rattle.refutation.specs.Laws.{TracedTreeRefutes, TracedTreeHasNoSweep, TracedTreeHasBareLeaves};
ghost use Rattle.refutation.specs.Laws.{TracedTreeHasAsManyNodes};

/// A network that a tree refutes has no scenario. A list of nodes refutes or has a fault, and one alone. Out of memory
/// is no fault of a tree. The nodes of a search have bare leaves.
pub fn laws_of_refutations()
    ensures refuted_has_no_scenario { RefutedHasNoScenario }
    ensures refutation_has_no_fault { RefutationHasNoFault }
    ensures tree_fault_is_one { TreeFaultIsOne }
    ensures refutation_or_fault { RefutationOrFault }
    ensures swept_leaves_are_bare { SweptLeavesAreBare }
{}

/// A network has ruled steps, and one list of them, which leads to its closure. The traced tree of a tree that refutes
/// refutes too, and none of its nodes sweeps. It has as many nodes, and its leaves are bare.
pub fn laws_of_traced_trees()
    ensures ruled_steps_exist { RuledStepsExist }
    ensures ruled_steps_are_one { RuledStepsAreOne }
    ensures ruled_steps_lead_to_closure { RuledStepsLeadToClosure }
    ensures traced_tree_refutes { TracedTreeRefutes }
    ensures traced_tree_has_no_sweep { TracedTreeHasNoSweep }
    ensures traced_tree_has_bare_leaves { TracedTreeHasBareLeaves }
    ensures traced_tree_has_as_many_nodes { TracedTreeHasAsManyNodes }
{}
