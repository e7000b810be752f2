//! The classes that are built in: three of RCC-8, by their rules, and the one of single base relations.
ghost use Rattle.std.specs.Prelude.{◌≡◌, ℕ, ◌≤◌, Bool, IfOk};
ghost use Rattle.tract_classes.specs.BuiltIn.{meets, is_np8, is_not_h8, is_not_c8, is_not_q8};
ghost use Rattle.tract_classes.specs.BuiltIn.{is_in, members, h8, c8, q8, singles};

use crate::class::Class;
use calculus_table::Memory;
use std::alloc::{AllocError, Global};

/// The sets of one base relation.
const DC: u64 = 1 << 0;

const EC: u64 = 1 << 1;

const PO: u64 = 1 << 2;

const TPP: u64 = 1 << 3;

const NTPP: u64 = 1 << 4;

const TPPI: u64 = 1 << 5;

const NTPPI: u64 = 1 << 6;

const EQ: u64 = 1 << 7;

/// How many sets of base relations of RCC-8 there are.
const RCC8_SETS: u64 = 256;

/// A class of RCC-8 that is built in.
#[derive(Clone, Copy, Debug, PartialEq, Eq)]
enum Rcc8Class {
    H8,
    C8,
    Q8,
}

impl Rcc8Class {
    /// Whether the set is a member.
    fn has(self, a: u64) -> bool
        ensures { result ≡ is_in self a }
    {
        let is_left_out = match self {
            Rcc8Class::H8 => is_not_h8(a),
            Rcc8Class::C8 => is_not_c8(a),
            Rcc8Class::Q8 => is_not_q8(a),
        };
        !is_np8(a) & !is_left_out
    }
}

/// The class of RCC-8 with 148 members.
pub fn h8(alloc: Global) -> Result<Class, Memory>
    ensures { IfOk result (λ class. class ≡ h8) }
{
    rcc8_class(alloc, Rcc8Class::H8)
}

/// The class of RCC-8 with 158 members.
pub fn c8(alloc: Global) -> Result<Class, Memory>
    ensures { IfOk result (λ class. class ≡ c8) }
{
    rcc8_class(alloc, Rcc8Class::C8)
}

/// The class of RCC-8 with 160 members.
pub fn q8(alloc: Global) -> Result<Class, Memory>
    ensures { IfOk result (λ class. class ≡ q8) }
{
    rcc8_class(alloc, Rcc8Class::Q8)
}

/// The class of the empty relation and the single ones of so many base relations.
pub fn none(alloc: Global, size: u32) -> Result<Class, Memory>
    requires { size ≤ 64 }
    ensures { IfOk result (λ class. class ≡ singles size) }
{
    let Ok(members) = singles(alloc, size) else {
        return Err(Memory);
    };
    Class::new(alloc, members, size)
}

/// The empty relation and the single ones of so many base relations.
fn singles(alloc: Global, size: u32) -> Result<Vec<u64>, AllocError>
    requires { size ≤ 64 }
    ensures { IfOk result (λ sets. sets.items ≡ singles size) }
{
    let mut sets = Vec::new(alloc);
    sets.push(0)?;
    for r in 0..size {
        sets.push(1 << r)?;
    }
    Ok(sets)
}

/// A class of RCC-8 by its rule.
fn rcc8_class(alloc: Global, which: Rcc8Class) -> Result<Class, Memory>
    ensures { IfOk result (λ class. class ≡ members which) }
{
    let Ok(members) = members_of(alloc, which) else {
        return Err(Memory);
    };
    Class::new(alloc, members, 8)
}

/// The members of a class of RCC-8, in ascending order.
fn members_of(alloc: Global, which: Rcc8Class) -> Result<Vec<u64>, AllocError>
    ensures { IfOk result (λ sets. sets.items ≡ members which) }
{
    (0..RCC8_SETS)
        .filter(|word| which.has(*word))
        .collect(alloc)
}

/// Whether the two sets have a base relation in common.
fn meets(a: u64, b: u64) -> bool
    ensures { result ≡ meets a b }
{
    a & b != 0
}

/// Whether the set is in none of the three classes.
fn is_np8(a: u64) -> bool
    ensures { result ≡ is_np8 a }
{
    !meets(a, PO) & meets(a, TPP | NTPP) & meets(a, TPPI | NTPPI)
        | (a == EC | NTPP | EQ)
        | (a == DC | EC | NTPP | EQ)
        | (a == EC | NTPPI | EQ)
        | (a == DC | EC | NTPPI | EQ)
}

/// Whether the set isn't in H8 by its own rule.
fn is_not_h8(a: u64) -> bool
    ensures { result ≡ is_not_h8 a }
{
    meets(a, EQ) & meets(a, NTPP) & !meets(a, TPP)
        | meets(a, EQ) & meets(a, NTPPI) & !meets(a, TPPI)
}

/// Whether the set isn't in C8 by its own rule.
fn is_not_c8(a: u64) -> bool
    ensures { result ≡ is_not_c8 a }
{
    meets(a, EC) & !meets(a, PO) & meets(a, TPP | NTPP | TPPI | NTPPI | EQ)
}

/// Whether the set isn't in Q8 by its own rule.
fn is_not_q8(a: u64) -> bool
    ensures { result ≡ is_not_q8 a }
{
    meets(a, EQ) & !meets(a, PO) & meets(a, TPP | NTPP | TPPI | NTPPI)
}
