ghost use Rattle.std.specs.Prelude.{◌≡◌, IfOk};
ghost use Rattle.calculus_builtin.specs.Point.{point_calculus};

use crate::constant::constant_calculus;
use calculus_table::{Calculus, Memory};
use std::alloc::Global;

const NAMES: [&str; 3] = ["<", "=", ">"];

const LESS: u64 = 1 << 0;

const SAME: u64 = 1 << 1;

const GREATER: u64 = 1 << 2;

const ANY: u64 = LESS | SAME | GREATER;

const IDENTITY: u32 = 1;

const CONVERSES: [u32; 3] = [2, 1, 0];

#[rattlefmt::skip]
const COMPOSITIONS: [u64; 9] = [
    LESS, LESS, ANY,
    LESS, SAME, GREATER,
    ANY, GREATER, GREATER,
];

/// The point calculus: before, at and after.
pub fn point(alloc: Global) -> Result<Calculus, Memory>
    ensures { IfOk result (λ c. c ≡ point_calculus) }
{
    constant_calculus(alloc, &NAMES, IDENTITY, &CONVERSES, &COMPOSITIONS)
}
