//! Vectors of 16 bytes, lane by lane.

ghost use Rattle.std.specs.Prelude.{◌≡◌, ◌≢◌, ◌↔◌, ℕ, ◌+◌, ◌*◌, ◌/◌, ◌%◌, ◌<◌, ◌≤◌, length, slice_index};
ghost use Rattle.std.specs.Prelude.{bit_and, bit_or};
ghost use Rattle.calculus_table.specs.Rel.{Has};
ghost use Rattle.std.specs.Simd.Lanes.{put_chunk};
ghost use Rattle.compose_fast.specs.Lanes.{HasLanes, by_nibbles};

use std::simd::prelude::*;

/// The 16 bytes from place `i` on.
#[inline(always)]
pub(crate) fn load(bytes: &[u8], i: usize) -> u8x16
    requires { i + 16 ≤ length bytes.now }
    ensures { HasLanes 16 result (λ k. slice_index bytes.now (i + k)) }
{
    u8x16::from_slice(&bytes[i..])
}

/// Stores the lanes from place `i` on.
#[inline(always)]
pub(crate) fn store(bytes: &mut [u8], i: usize, v: u8x16)
    requires { i + 16 ≤ length bytes.old }
    ensures { bytes.new ≡ put_chunk i bytes.old v }
{
    v.copy_to_slice(&mut bytes[i..]);
}

/// The members of both sets of each lane.
#[inline(always)]
pub(crate) fn both(a: u8x16, b: u8x16) -> u8x16
    ensures { HasLanes 16 result (λ k. bit_and (slice_index a k) (slice_index b k)) }
{
    a & b
}

/// The members of either set of each lane.
#[inline(always)]
pub(crate) fn either(a: u8x16, b: u8x16) -> u8x16
    ensures { HasLanes 16 result (λ k. bit_or (slice_index a k) (slice_index b k)) }
{
    a | b
}

/// Reads the table at the lower nibble of each lane.
#[inline(always)]
fn at_low_nibble(table: u8x16, v: u8x16) -> u8x16
    ensures { HasLanes 16 result (λ k. slice_index table (slice_index v k % 16)) }
{
    table.swizzle_dyn(v & u8x16::splat(15))
}

/// Reads the table at the upper nibble of each lane.
#[inline(always)]
fn at_high_nibble(table: u8x16, v: u8x16) -> u8x16
    ensures { HasLanes 16 result (λ k. slice_index table (slice_index v k / 16)) }
{
    table.swizzle_dyn(v >> u8x16::splat(4))
}

/// Reads the two tables at the nibbles of each lane, and takes the members of either.
#[inline(always)]
pub(crate) fn along(low: u8x16, high: u8x16, v: u8x16) -> u8x16
    ensures { HasLanes 16 result (λ k. by_nibbles low high (slice_index v k)) }
{
    either(at_low_nibble(low, v), at_high_nibble(high, v))
}

/// A bit for each lane in which the vectors differ.
#[inline(always)]
pub(crate) fn differing(a: u8x16, b: u8x16) -> u64
    ensures lanes { (k : ℕ) → k < 16 → Has result k ↔ (slice_index a k ≢ slice_index b k) }
    ensures below { (k : ℕ) → Has result k → k < 16 }
{
    a.simd_ne(b).to_bitmask()
}
