ghost use Rattle.std.specs.Prelude.{◌≡◌, IfOk};
ghost use Rattle.calculus_builtin.specs.Allen.{allen_calculus, FollowsRule};

use crate::constant::constant_calculus;
use calculus_table::{Calculus, Memory};
use std::alloc::Global;

const NAMES: [&str; 13] = [
    "b", "m", "o", "fi", "di", "s", "eq", "si", "d", "f", "oi", "mi", "bi",
];

const B: u64 = 1 << 0;

const M: u64 = 1 << 1;

const O: u64 = 1 << 2;

const FI: u64 = 1 << 3;

const DI: u64 = 1 << 4;

const S: u64 = 1 << 5;

const EQ: u64 = 1 << 6;

const SI: u64 = 1 << 7;

const D: u64 = 1 << 8;

const F: u64 = 1 << 9;

const OI: u64 = 1 << 10;

const MI: u64 = 1 << 11;

const BI: u64 = 1 << 12;

const IDENTITY: u32 = 6;

const CONVERSES: [u32; 13] = [12, 11, 10, 9, 8, 7, 6, 5, 4, 3, 2, 1, 0];

// The relations of intervals that share more than an end point.
const INNER: u64 = O | FI | DI | S | EQ | SI | D | F | OI;

const ALL: u64 = B | M | INNER | MI | BI;

#[rattlefmt::skip]
const COMPOSITIONS: [u64; 169] = [
    // b
    B, B, B, B, B, B, B, B, B | M | O | S | D, B | M | O | S | D, B | M | O | S | D,
    B | M | O | S | D, ALL,
    // m
    B, B, B, B, B, M, M, M, O | S | D, O | S | D, O | S | D, FI | EQ | F, DI | SI | OI | MI | BI,
    // o
    B, B, B | M | O, B | M | O, B | M | O | FI | DI, O, O, O | FI | DI, O | S | D, O | S | D, INNER,
    DI | SI | OI, DI | SI | OI | MI | BI,
    // fi
    B, M, O, FI, DI, O, FI, DI, O | S | D, FI | EQ | F, DI | SI | OI, DI | SI | OI,
    DI | SI | OI | MI | BI,
    // di
    B | M | O | FI | DI, O | FI | DI, O | FI | DI, DI, DI, O | FI | DI, DI, DI, INNER, DI | SI | OI,
    DI | SI | OI, DI | SI | OI, DI | SI | OI | MI | BI,
    // s
    B, B, B | M | O, B | M | O, B | M | O | FI | DI, S, S, S | EQ | SI, D, D, D | F | OI, MI, BI,
    // eq
    B, M, O, FI, DI, S, EQ, SI, D, F, OI, MI, BI,
    // si
    B | M | O | FI | DI, O | FI | DI, O | FI | DI, DI, DI, S | EQ | SI, SI, SI, D | F | OI, OI, OI,
    MI, BI,
    // d
    B, B, B | M | O | S | D, B | M | O | S | D, ALL, D, D, D | F | OI | MI | BI, D, D,
    D | F | OI | MI | BI, BI, BI,
    // f
    B, M, O | S | D, FI | EQ | F, DI | SI | OI | MI | BI, D, F, OI | MI | BI, D, F, OI | MI | BI,
    BI, BI,
    // oi
    B | M | O | FI | DI, O | FI | DI, INNER, DI | SI | OI, DI | SI | OI | MI | BI, D | F | OI, OI,
    OI | MI | BI, D | F | OI, OI, OI | MI | BI, BI, BI,
    // mi
    B | M | O | FI | DI, S | EQ | SI, D | F | OI, MI, BI, D | F | OI, MI, BI, D | F | OI, MI, BI,
    BI, BI,
    // bi
    ALL, D | F | OI | MI | BI, D | F | OI | MI | BI, BI, BI, D | F | OI | MI | BI, BI, BI,
    D | F | OI | MI | BI, BI, BI, BI, BI,
];

/// Allen's algebra of intervals: thirteen relations, whose compositions are those of the end points.
pub fn allen(alloc: Global) -> Result<Calculus, Memory>
    ensures value { IfOk result (λ c. c ≡ allen_calculus) }
    ensures rule { IfOk result (λ c. FollowsRule c.algebra) }
{
    constant_calculus(alloc, &NAMES, IDENTITY, &CONVERSES, &COMPOSITIONS)
}
