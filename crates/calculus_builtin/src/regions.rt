ghost use Rattle.std.specs.Prelude.{◌≡◌, IfOk};
ghost use Rattle.calculus_builtin.specs.Rcc8.{rcc8_calculus};

use crate::constant::constant_calculus;
use calculus_table::{Calculus, Memory};
use std::alloc::Global;

const NAMES: [&str; 8] = ["DC", "EC", "PO", "TPP", "NTPP", "TPPi", "NTPPi", "EQ"];

const DC: u64 = 1 << 0;

const EC: u64 = 1 << 1;

const PO: u64 = 1 << 2;

const TPP: u64 = 1 << 3;

const NTPP: u64 = 1 << 4;

const TPPI: u64 = 1 << 5;

const NTPPI: u64 = 1 << 6;

const EQ: u64 = 1 << 7;

const IDENTITY: u32 = 7;

const CONVERSES: [u32; 8] = [0, 1, 2, 5, 6, 3, 4, 7];

const PART: u64 = TPP | NTPP;

const WHOLE: u64 = TPPI | NTPPI;

const ALL: u64 = DC | EC | PO | PART | WHOLE | EQ;

#[rattlefmt::skip]
const COMPOSITIONS: [u64; 64] = [
    // DC
    ALL, DC | EC | PO | PART, DC | EC | PO | PART, DC | EC | PO | PART, DC | EC | PO | PART, DC, DC,
    DC,
    // EC
    DC | EC | PO | WHOLE, DC | EC | PO | TPP | TPPI | EQ, DC | EC | PO | PART, EC | PO | PART,
    PO | PART, DC | EC, DC, EC,
    // PO
    DC | EC | PO | WHOLE, DC | EC | PO | WHOLE, ALL, PO | PART, PO | PART, DC | EC | PO | WHOLE,
    DC | EC | PO | WHOLE, PO,
    // TPP
    DC, DC | EC, DC | EC | PO | PART, PART, NTPP, DC | EC | PO | TPP | TPPI | EQ,
    DC | EC | PO | WHOLE, TPP,
    // NTPP
    DC, DC, DC | EC | PO | PART, NTPP, NTPP, DC | EC | PO | PART, ALL, NTPP,
    // TPPi
    DC | EC | PO | WHOLE, EC | PO | WHOLE, PO | WHOLE, PO | TPP | TPPI | EQ, PO | PART, WHOLE,
    NTPPI, TPPI,
    // NTPPi
    DC | EC | PO | WHOLE, PO | WHOLE, PO | WHOLE, PO | WHOLE, PO | PART | WHOLE | EQ, NTPPI, NTPPI,
    NTPPI,
    // EQ
    DC, EC, PO, TPP, NTPP, TPPI, NTPPI, EQ,
];

/// RCC-8, the calculus of Randell, Cui and Cohn: eight relations of regions.
pub fn rcc8(alloc: Global) -> Result<Calculus, Memory>
    ensures { IfOk result (λ c. c ≡ rcc8_calculus) }
{
    constant_calculus(alloc, &NAMES, IDENTITY, &CONVERSES, &COMPOSITIONS)
}
