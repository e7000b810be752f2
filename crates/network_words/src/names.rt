//! The numbers of the names of nodes.
ghost use Rattle.std.specs.Prelude.{◌≡◌, ◌≢◌, ℕ, ◌≤◌, length, map, slice_get, Some, IfOk, IfErr, MatchOption};
ghost use Rattle.std.specs.String.{string_bytes};
ghost use Rattle.calculus_table.specs.Calculus.{AreDistinct};
ghost use Rattle.network_words.specs.NetFault.{IsNamesFaultOf};

use crate::MAX_NODES;
use crate::net::NetFault;
use indexmap::IndexSet;
use std::alloc::Global;

/// The names, each numbered by its place.
pub(crate) fn numbered(alloc: Global, names: Vec<String>) -> Result<IndexSet<String>, NetFault>
    requires { length names.items ≤ MAX_NODES }
    ensures ok { IfOk result (λ numbered. numbered.keys ≡ names.items) }
    ensures distinct { IfOk result (λ _. AreDistinct (map string_bytes names.items)) }
    ensures fault { IfErr result (IsNamesFaultOf (map string_bytes names.items)) }
{
    let Ok(mut numbered) = IndexSet::with_capacity(alloc, names.len()) else {
        return Err(NetFault::Memory);
    };
    for name in names {
        let at = numbered.len() as u32;
        match numbered.insert(name) {
            Ok(true) => {}
            Ok(false) => return Err(NetFault::NameTwice { at }),
            Err(_) => return Err(NetFault::Memory),
        }
    }
    Ok(numbered)
}

/// The number of this name.
pub(crate) fn number_of(names: &IndexSet<String>, name: &[u8]) -> Option<usize>
    ensures { MatchOption result
        ((k : ℕ) → slice_get (map string_bytes names.now.keys) k ≢ Some name.now)
        (λ k. slice_get (map string_bytes names.now.keys) k ≡ Some name.now) }
{
    match str::from_utf8(name) {
        Ok(text) => names.get_index_of(text),
        Err(_) => None,
    }
}
