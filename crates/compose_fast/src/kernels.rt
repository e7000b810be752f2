//! Loops over words, several words at a time: each gives what the plain loop gives, for every length. What doesn't
//! fill a vector at the end is looked at word by word.

ghost use Rattle.std.specs.Prelude.{◌≡◌, ◌≢◌, ◌↔◌, ℕ, ◌+◌, ◌<◌, ◌≤◌, ◌^◌, length, slice_index, MatchOption};
ghost use Rattle.std.specs.Prelude.{bit_and, bit_or};
ghost use Rattle.calculus_table.specs.Rel.{Has};
ghost use Rattle.calculus_table.specs.Composition.{if_has};
ghost use Rattle.compose_fast.specs.Lanes.{HasLanes};
ghost use Rattle.compose_fast.specs.Kernels.{union_of_rows, IsFirstDifference, IsFirstZero};

use std::simd::prelude::*;

/// Every bit where bit `r` of the mask is set, else none.
#[inline(always)]
fn chosen(mask: u64, r: usize) -> u64
    requires { r < 64 }
    ensures { (x : ℕ) → x < 2 ^ 64 → bit_and x result ≡ if_has mask r x }
{
    if mask >> r & 1 == 1 { u64::MAX } else { 0 }
}

/// Adds rows `i` and `i + 1`, each where its bit is set in the mask.
#[inline(always)]
fn add_two(all: u64x2, rows: &[u64], mask: u64, i: usize) -> u64x2
    requires inside { i + 2 ≤ length rows.now }
    requires few { length rows.now ≤ 64 }
    ensures { HasLanes 2 result (λ k. bit_or (slice_index all k) (if_has mask (i + k) (slice_index rows.now (i + k)))) }
{
    let rows = u64x2::from_slice(&rows[i..]);
    let masks = u64x2::from_array([chosen(mask, i), chosen(mask, i + 1)]);
    all | rows & masks
}

/// The union of the rows whose bit is set in the mask.
pub fn or_rows(rows: &[u64], mask: u64) -> u64
    requires { length rows.now ≤ 64 }
    ensures { result ≡ union_of_rows rows.now mask }
{
    let mut all = u64x2::splat(0);
    let mut i = 0;
    while i + 2 <= rows.len() {
        all = add_two(all, rows, mask, i);
        i += 2;
    }
    let [even, odd] = all.to_array();
    let sum = even | odd;
    if i < rows.len() {
        sum | rows[i] & chosen(mask, i)
    } else {
        sum
    }
}

/// A bit for each of the four places from `i` on at which the lists differ.
#[inline(always)]
fn differing_at(a: &[u64], b: &[u64], i: usize) -> u64
    requires first { i + 4 ≤ length a.now }
    requires second { i + 4 ≤ length b.now }
    ensures lanes { (k : ℕ) → k < 4 → Has result k ↔ (slice_index a.now (i + k) ≢ slice_index b.now (i + k)) }
    ensures below { (k : ℕ) → Has result k → k < 4 }
{
    u64x4::from_slice(&a[i..])
        .simd_ne(u64x4::from_slice(&b[i..]))
        .to_bitmask()
}

/// The least place from `i` on at which the lists differ.
fn first_difference_from(a: &[u64], b: &[u64], i: usize) -> Option<usize>
    requires length_is { length a.now ≡ length b.now }
    requires before { (k : ℕ) → k < i → slice_index a.now k ≡ slice_index b.now k }
    ensures { MatchOption result (a.now ≡ b.now) (IsFirstDifference a.now b.now) }
{
    for k in i..a.len() {
        if a[k] != b[k] {
            return Some(k);
        }
    }
    None
}

/// The least place at which the lists differ.
pub fn first_difference(a: &[u64], b: &[u64]) -> Option<usize>
    requires { length a.now ≡ length b.now }
    ensures { MatchOption result (a.now ≡ b.now) (IsFirstDifference a.now b.now) }
{
    let mut i = 0;
    while i + 4 <= a.len() {
        let gaps = differing_at(a, b, i);
        if gaps != 0 {
            return Some(i + gaps.trailing_zeros() as usize);
        }
        i += 4;
    }
    first_difference_from(a, b, i)
}

/// A bit for each of the four places from `i` on that holds a zero.
#[inline(always)]
fn zeros_at(a: &[u64], i: usize) -> u64
    requires { i + 4 ≤ length a.now }
    ensures lanes { (k : ℕ) → k < 4 → Has result k ↔ (slice_index a.now (i + k) ≡ 0) }
    ensures below { (k : ℕ) → Has result k → k < 4 }
{
    u64x4::from_slice(&a[i..])
        .simd_eq(u64x4::splat(0))
        .to_bitmask()
}

/// The least place from `i` on that holds a zero.
fn first_zero_from(a: &[u64], i: usize) -> Option<usize>
    requires { (k : ℕ) → k < i → slice_index a.now k ≢ 0 }
    ensures { MatchOption result ((k : ℕ) → k < length a.now → slice_index a.now k ≢ 0) (IsFirstZero a.now) }
{
    for k in i..a.len() {
        if a[k] == 0 {
            return Some(k);
        }
    }
    None
}

/// The least place that holds a zero.
pub fn first_zero(a: &[u64]) -> Option<usize>
    ensures { MatchOption result ((k : ℕ) → k < length a.now → slice_index a.now k ≢ 0) (IsFirstZero a.now) }
{
    let mut i = 0;
    while i + 4 <= a.len() {
        let zeros = zeros_at(a, i);
        if zeros != 0 {
            return Some(i + zeros.trailing_zeros() as usize);
        }
        i += 4;
    }
    first_zero_from(a, i)
}
