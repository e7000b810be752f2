//! Ramsey's calculus of two colours: whoever colours the edges of six nodes has a triangle of one colour.
ghost use Rattle.std.specs.Prelude.{◌≡◌, IfOk, length};

use crate::nets;
use calculus_table::{Calculus, Rel, TableFault};
use std::alloc::Global;

/// The two colours, each on an edge alone.
pub(crate) const A: u64 = 2;

pub(crate) const B: u64 = 4;

/// Six nodes, of which the first has edges of known colours to four others.
pub(crate) const FAN: [u64; 15] = [A, B, A, B, 6, 6, 6, 6, 6, 6, 6, 6, 6, 6, 6];

/// The compositions of the identity and the two colours: no triangle has one colour alone.
const COMPOSITIONS: [u64; 9] = [1, 2, 4, 2, 5, 6, 4, 6, 3];

fn owned(alloc: Global, name: &str) -> Result<String, TableFault> {
    String::from_str(alloc, name).map_err(|_| TableFault::Memory)
}

fn three_names(alloc: Global) -> Result<Vec<String>, TableFault>
    ensures { IfOk result (λ owned. length owned.items ≡ 3) }
{
    let owned = [owned(alloc, "id")?, owned(alloc, "a")?, owned(alloc, "b")?];
    Vec::from_array(alloc, owned).map_err(|_| TableFault::Memory)
}

fn sets_of(alloc: Global, words: &[u64]) -> Result<Vec<Rel>, TableFault>
    ensures { IfOk result (λ sets. sets.items ≡ words.now) }
{
    match nets::sets_of(alloc, words) {
        Ok(sets) => Ok(sets),
        Err(_) => Err(TableFault::Memory),
    }
}

/// The calculus of the identity and the two colours.
pub(crate) fn ramsey(alloc: Global) -> Result<Calculus, TableFault> {
    let names = three_names(alloc)?;
    let table = sets_of(alloc, &COMPOSITIONS)?;
    Calculus::new(alloc, names, 0, &[0, 1, 2], &table)
}
