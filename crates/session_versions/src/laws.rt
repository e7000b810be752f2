ghost use Rattle.std.specs.Prelude.{◌≡◌};
ghost use Rattle.session_versions.specs.Laws.{ClosureGoesOn, FactsHaveOneClosure};

use crate::KEPT_VERSIONS;

/// The laws of versions, which hold in every calculus.
pub fn laws_of_versions()
    ensures kept { KEPT_VERSIONS ≡ 16 }
    ensures closure_goes_on { ClosureGoesOn }
    ensures facts_have_one_closure { FactsHaveOneClosure }
{}
