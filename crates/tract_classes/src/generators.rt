//! Members of a class of which each member is an intersection.
//!
//! The members are gone through in descending order, and one is kept unless it is the intersection of the kept ones
//! that it is within. What it is within comes before it, so none is kept that could be left out. ORD-Horn has 16 of
//! them among 868 members.
ghost use Rattle.std.specs.Prelude.{◌≡◌, ℕ, IfOk};
ghost use Rattle.tract_classes.specs.Generators.{Generate, meet_of_around};

use crate::class::Class;
use calculus_table::Memory;
use std::alloc::Global;

/// The intersection of those sets that a set is within.
fn meet_of_around(sets: &[u64], word: u64) -> u64
    ensures { result ≡ meet_of_around sets.now word }
{
    let mut meet = u64::MAX;
    for set in sets {
        if word & *set == word {
            meet &= *set;
        }
    }
    meet
}

/// Members of which each member is an intersection.
pub(crate) fn generators(alloc: Global, class: &Class) -> Result<Vec<u64>, Memory>
    ensures { IfOk result (λ sets. Generate class.now sets.items) }
{
    let members = class.members();
    let mut sets = Vec::new(alloc);
    for k in (0..members.len()).rev() {
        let word = members[k];
        if meet_of_around(&sets, word) != word {
            let Ok(()) = sets.push(word) else {
                return Err(Memory);
            };
        }
    }
    Ok(sets)
}
