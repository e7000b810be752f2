ghost use Rattle.allen_real.specs.Laws.{ScenarioIsOfOpen, ScenarioIsRealised, RanksAreOne, RealisedIsScenario};
ghost use Rattle.allen_real.specs.Laws.{RanksLeaveNoGap};

/// A scenario of Allen's algebra is realised by ranks, by one list of intervals alone, whichever network it is of; what
/// intervals realise is a scenario; and ranks leave no gap.
pub fn laws_of_realisations()
    ensures scenario_is_of_open { ScenarioIsOfOpen }
    ensures scenario_is_realised { ScenarioIsRealised }
    ensures ranks_are_one { RanksAreOne }
    ensures realised_is_scenario { RealisedIsScenario }
    ensures ranks_leave_no_gap { RanksLeaveNoGap }
{}
