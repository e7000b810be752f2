//! How far a text goes on with bytes that stand for themselves. 16 bytes are looked at together: a mask has a bit for
//! each of them that doesn't, and its lowest bit is where they end. The last bytes, fewer than 16, are looked at one
//! by one.
ghost use Rattle.std.specs.Prelude.{◌≡◌, ◌≤◌, length, map, not};
ghost use Rattle.std.specs.List.{prefix_len};
ghost use Rattle.std.specs.Simd.Lanes.{mask_l};
ghost use Rattle.qsr_lex.specs.Bytes.{is_plain};

use crate::bytes::is_plain;
use std::simd::prelude::*;

/// A bit for each of the bytes that is not allowed or begins a comment.
#[inline(always)]
fn stops(bytes: u8x16) -> u64
    ensures { result ≡ mask_l (map (λ byte. not (is_plain byte)) bytes) }
{
    let controls = bytes.simd_lt(u8x16::splat(b' ')) & bytes.simd_ne(u8x16::splat(b'\t'));
    let others = bytes.simd_eq(u8x16::splat(b'#')) | bytes.simd_ge(u8x16::splat(0x7F));
    (controls | others).to_bitmask()
}

/// How many bytes at the front are allowed and begin no comment.
pub(crate) fn plain_len(text: &[u8]) -> usize
    ensures value { result ≡ prefix_len is_plain text.now }
    ensures bound { result ≤ length text.now }
{
    let mut at = 0;
    while text.len() - at >= 16 {
        let found = stops(u8x16::from_slice(&text[at..]));
        if found != 0 {
            return at + found.trailing_zeros() as usize;
        }
        at += 16;
    }
    at + last_plain_len(&text[at..])
}

/// How many bytes at the front of a short text are allowed and begin no comment.
fn last_plain_len(text: &[u8]) -> usize
    ensures value { result ≡ prefix_len is_plain text.now }
    ensures bound { result ≤ length text.now }
{
    text.iter().take_while(|byte| is_plain(**byte)).count()
}
