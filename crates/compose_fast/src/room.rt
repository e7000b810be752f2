//! Lists of one value, made a block at a time: a block is copied by whole vectors, which takes fewer instructions
//! than writing its values one after another. Room is taken once, and filled as far as it is used: what isn't filled
//! is never touched.

ghost use Rattle.std.specs.Prelude.{◌≡◌, ◌+◌, ◌*◌, ◌≤◌, ◌++◌, [], length, replicate, vec_len, vec_capacity, IfOk};

use calculus_table::Memory;
use std::alloc::Global;

/// How many values a block has.
const BLOCK: usize = 256;

/// Appends a block, for which there is room.
#[inline(always)]
fn push_block<T: Copy>(all: &mut Vec<T>, block: &[T])
    requires { vec_len all.old + length block.now ≤ vec_capacity all.old }
    ensures items { all.new.items ≡ all.old.items ++ block.now }
    ensures len { vec_len all.new ≡ vec_len all.old + length block.now }
    ensures room { vec_capacity all.old ≤ vec_capacity all.new }
{
    match all.extend_from_slice(block) {
        Ok(()) => {}
        Err(_) => unreachable!(),
    }
}

/// Room for so many blocks of 256 values.
pub fn with_room<T: Drop>(alloc: Global, blocks: usize) -> Result<Vec<T>, Memory>
    ensures none { IfOk result (λ all. all.items ≡ []) }
    ensures room { IfOk result (λ all. 256 * blocks ≤ vec_capacity all) }
{
    let Some(count) = blocks.checked_mul(BLOCK) else {
        return Err(Memory);
    };
    match Vec::with_capacity(alloc, count) {
        Ok(all) => Ok(all),
        Err(_) => Err(Memory),
    }
}

/// Puts so many blocks of zeros into a list that has room for them, in place of what it had.
pub fn clear_to(all: &mut Vec<u8>, blocks: usize)
    requires { 256 * blocks ≤ vec_capacity all.old }
    ensures items { all.new.items ≡ replicate (256 * blocks) 0 }
    ensures room { vec_capacity all.old ≤ vec_capacity all.new }
{
    let block = [0; BLOCK];
    all.clear();
    for _zeros in 0..blocks {
        push_block(all, &block);
    }
}

/// A block of copies of a value.
fn block_of<T: Copy>(alloc: Global, value: T) -> Result<Vec<T>, Memory>
    ensures { IfOk result (λ block. block.items ≡ replicate 256 value) }
{
    let mut block = Vec::new(alloc);
    block.resize(BLOCK, value).map_err(|_| Memory)?;
    Ok(block)
}

/// So many blocks of 256 copies of a value each, one after another.
pub fn filled<T: Copy + Drop>(alloc: Global, value: T, blocks: usize) -> Result<Vec<T>, Memory>
    ensures { IfOk result (λ all. all.items ≡ replicate (256 * blocks) value) }
{
    let block = block_of(alloc, value)?;
    let mut all = with_room(alloc, blocks)?;
    for _block in 0..blocks {
        push_block(&mut all, &block);
    }
    Ok(all)
}

/// A copy of a list.
pub(crate) fn copied(alloc: Global, all: &[u8]) -> Result<Vec<u8>, Memory>
    ensures { IfOk result (λ copy. copy.items ≡ all.now) }
{
    let copy = all.to_vec(alloc).map_err(|_| Memory)?;
    Ok(copy)
}
