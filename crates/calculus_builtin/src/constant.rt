ghost use Rattle.std.specs.Prelude.{◌≡◌, map, length, IfOk};
ghost use Rattle.std.specs.String.{string_bytes};
ghost use Rattle.calculus_table.specs.Calculus.{IsNamedCalculus};

use calculus_table::{Calculus, Memory, Rel};
use std::alloc::Global;

/// The calculus of a constant table, whose compositions are given as words. That its laws hold is
/// proved, so they aren't tested when the program runs.
pub(crate) fn constant_calculus(
    alloc: Global,
    names: &[&str],
    id: u32,
    converses: &[u32],
    words: &[u64],
) -> Result<Calculus, Memory>
    requires { IsNamedCalculus (record {
      names = map (λ name. name.now) names.now;
      algebra = record {
        size = length names.now;
        identity = id;
        converses = converses.now;
        table = words.now;
      };
    }) }
    ensures { IfOk result (λ c. c ≡ record {
      names = map (λ name. name.now) names.now;
      algebra = record {
        size = length names.now;
        identity = id;
        converses = converses.now;
        table = words.now;
      };
    }) }
{
    let names = owned(alloc, names)?;
    let table = sets_of(alloc, words)?;
    let converses = converses.to_vec(alloc).map_err(|_| Memory)?;
    Ok(Calculus::of_lawful(names, id, converses, table))
}

/// The names as owned strings.
fn owned(alloc: Global, names: &[&str]) -> Result<Vec<String>, Memory>
    ensures bytes { IfOk result
        (λ owned. map string_bytes owned.items ≡ map (λ name. name.now) names.now) }
    ensures count { IfOk result (λ owned. length owned.items ≡ length names.now) }
{
    let mut owned = Vec::new(alloc);
    for name in names {
        let text = String::from_str(alloc, name).map_err(|_| Memory)?;
        owned.push(text).map_err(|_| Memory)?;
    }
    Ok(owned)
}

/// The sets of these words.
fn sets_of(alloc: Global, words: &[u64]) -> Result<Vec<Rel>, Memory>
    ensures { IfOk result (λ sets. sets.items ≡ words.now) }
{
    words
        .iter()
        .map(|word| Rel::of(*word))
        .collect(alloc)
        .map_err(|_| Memory)
}
