ghost use Rattle.scenario.specs.Laws.{ScenarioFaultIsOne, ScenarioHasNoFault, ScenarioOrFault};

/// A list of base relations has one fault at most, a scenario has none, and each list that is no scenario has one.
pub fn laws_of_scenario_faults()
    ensures scenario_fault_is_one { ScenarioFaultIsOne }
    ensures scenario_has_no_fault { ScenarioHasNoFault }
    ensures scenario_or_fault { ScenarioOrFault }
{}
