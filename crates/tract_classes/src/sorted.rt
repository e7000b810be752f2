//! Sets in ascending order of their words, searched by halves.
ghost use Rattle.std.specs.Prelude.{◌≡◌, ◌↔◌, IsTrue, OnOk, OnErr, Contains};
ghost use Rattle.std.specs.List.Sorted.{IsStrictlyIncreasing};
ghost use Rattle.tract_classes.specs.ClassFile.{with_member};

use calculus_table::Memory;

/// Whether the set is among sets in ascending order.
pub(crate) fn contains(sets: &[u64], word: u64) -> bool
    requires { IsStrictlyIncreasing sets.now }
    ensures { IsTrue result ↔ Contains sets.now word }
{
    sets.binary_search(&word).is_ok()
}

/// Adds a set to sets in ascending order, unless it is among them. Out of memory they are as before.
pub(crate) fn insert(sets: &mut Vec<u64>, word: u64) -> Result<(), Memory>
    requires { IsStrictlyIncreasing sets.old.items }
    ensures ok { OnOk result (sets.new.items ≡ with_member word sets.old.items) }
    ensures memory { OnErr result (sets.new.items ≡ sets.old.items) }
{
    let Err(at) = sets.binary_search(&word) else {
        return Ok(());
    };
    match sets.insert(at, word) {
        Ok(()) => Ok(()),
        Err(_) => Err(Memory),
    }
}
