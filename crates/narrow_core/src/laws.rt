ghost use Rattle.narrow_core.specs.Laws.{EveryScheduleKeepsTheBound, TheWholeWeightIsAlone, TheBoundMakesAlone};
ghost use Rattle.narrow_core.specs.Laws.{EveryStepKeepsTheBound};

/// What holds after every list of events from the opening of the machine, however the steps of its
/// actors interleave, and of every machine that keeps the bound.
pub fn laws_of_schedules()
    ensures every_schedule_keeps_the_bound { EveryScheduleKeepsTheBound }
    ensures the_whole_weight_is_alone { TheWholeWeightIsAlone }
    ensures the_bound_makes_alone { TheBoundMakesAlone }
    ensures every_step_keeps_the_bound { EveryStepKeepsTheBound }
{}
