//! What was chosen by measuring, in one place. No contract rests on any of it: with other numbers the same networks come
//! out, later or sooner. The measures stand in `docs/PERFORMANCE.md`.

/// How often a worker that has nothing to look at looks whether the others have: for some ten milliseconds. One that
/// ends while others still narrow costs a round of all, which is one or two.
pub(crate) const LOOKS: u32 = 100_000;

/// Of so many looks one lets another thread run on the processor, so that a worker keeps it from nobody who has
/// something to look at.
pub(crate) const YIELDS: u32 = 16;

/// The most turns that a worker takes on its copy in a round. Each takes an edge off the queue or sees less, so that few
/// are needed; that isn't proved, so a number makes sure that they end.
pub(crate) const TURNS: u32 = 1_000_000;

/// How often a worker reads what others told of, in vain, before it ends even if they go on.
pub(crate) const READS: u32 = 1_000;

/// The most whole sweeps of a slice, one after another.
pub(crate) const SWEEPS: u32 = 16;

/// What sweeping a row takes beside its blocks, in thirty-seconds of a block of 16 nodes: by it the slices are cut.
pub(crate) const ROW_COST: u32 = 128;
