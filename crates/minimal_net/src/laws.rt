//! Laws of labels, also over the classes over which they need no search.
ghost use Rattle.minimal_net.specs.Laws.{LabelIsOne, LabelExists, LabelIsTrue, SameClosureSameVerdict, ClosureSetTo};
ghost use Rattle.minimal_net.specs.Laws.{LabelOfClosure, SeenIsHeld, LabelledKeepsScenarios, LabelledIsMinimal};
ghost use Rattle.minimal_net.specs.Laws.{LabelsAreOne, LabelsExist, LabelsOfClosure, LabelsLeave, LabelsAreMinimal};
ghost use Rattle.minimal_net.specs.Laws.{StraightHasAt, StraightIsHeld};

/// A base relation has one label at an edge, and what it says is so; a network has the labels of its closure, and this
/// without the refuted base relations has the scenarios of the network, and is the minimal network where no label is
/// open.
pub fn laws_of_labels()
    ensures label_is_one { LabelIsOne }
    ensures label_exists { LabelExists }
    ensures label_is_true { LabelIsTrue }
    ensures same_closure_same_verdict { SameClosureSameVerdict }
    ensures closure_set_to { ClosureSetTo }
    ensures label_of_closure { LabelOfClosure }
    ensures seen_is_held { SeenIsHeld }
    ensures labelled_keeps_scenarios { LabelledKeepsScenarios }
    ensures labelled_is_minimal { LabelledIsMinimal }
{}

/// The labels of a network are one list, those of its closure too; without the refuted base relations they leave a
/// network that is minimal where no label is open.
pub fn laws_of_network_labels()
    ensures labels_are_one { LabelsAreOne }
    ensures labels_exist { LabelsExist }
    ensures labels_of_closure { LabelsOfClosure }
    ensures labels_leave { LabelsLeave }
    ensures labels_are_minimal { LabelsAreMinimal }
{}

/// Over a straight class the least base relations of a closed network in which an edge is set to a base relation are a
/// scenario that has it there. If the class is closed, the label is held with these, and needs no search, where the
/// budget has a split for each edge that has several base relations.
pub fn laws_of_straight_labels()
    ensures straight_has_at { StraightHasAt }
    ensures straight_is_held { StraightIsHeld }
{}
