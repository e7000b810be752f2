ghost use Rattle.std.specs.Prelude.{◌≡◌};
ghost use Rattle.calculus_table.specs.Laws.{CompositionIsMonotone, ConverseIsMonotone};
ghost use Rattle.calculus_table.specs.Laws.{CompositionDistributesLeft, CompositionDistributesRight};
ghost use Rattle.calculus_table.specs.Laws.{ConverseDistributes};
ghost use Rattle.calculus_table.specs.Laws.{ConverseTurnsComposition, ConverseIsInvolution, IdentityIsNeutral};
ghost use Rattle.calculus_table.specs.Laws.{TableFaultIsOne, CalculusHasNoFault, TableIsCalculusOrBreaksLaw};

use crate::MAX_BASES;

/// The laws of sets of base relations, which hold in every calculus.
pub fn laws_of_sets()
    ensures composition_is_monotone { CompositionIsMonotone }
    ensures converse_is_monotone { ConverseIsMonotone }
    ensures composition_distributes_left { CompositionDistributesLeft }
    ensures composition_distributes_right { CompositionDistributesRight }
    ensures converse_distributes { ConverseDistributes }
    ensures converse_turns_composition { ConverseTurnsComposition }
    ensures converse_is_involution { ConverseIsInvolution }
    ensures identity_is_neutral { IdentityIsNeutral }
{}

/// The laws of tables: how many base relations one may have, that it has one fault at most, and that it has one where
/// it is no calculus.
pub fn laws_of_tables()
    ensures limit { MAX_BASES ≡ 64 }
    ensures table_fault_is_one { TableFaultIsOne }
    ensures calculus_has_no_fault { CalculusHasNoFault }
    ensures calculus_or_fault { TableIsCalculusOrBreaksLaw }
{}
