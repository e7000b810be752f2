//! Splits whose children are looked at one after another.
ghost use Rattle.std.specs.Prelude.{◌≡◌, ◌≤◌, MatchOption, length};
ghost use Rattle.minimal_net.specs.Searching.{IsNextPart};

use calculus_table::Rel;

/// A split of an edge's set, and how many of its children were looked at.
#[derive(Debug, Drop)]
pub(crate) struct OpenSplit {
    /// The number of the edge.
    pub edge: u32,
    /// The parts into which its set is split.
    pub parts: Vec<Rel>,
    /// The place of the part whose child is next.
    pub next: usize,
}

impl OpenSplit {
    /// The part of the next child, which is passed; none after the last one.
    pub(crate) fn next_part(&mut self) -> Option<Rel>
        ensures { MatchOption result
            ((length self.old.parts.items ≤ self.old.next) × (self.new ≡ self.old))
            (IsNextPart self.old self.new) }
    {
        if self.next >= self.parts.len() {
            return None;
        }
        let part = self.parts[self.next];
        self.next += 1;
        Some(part)
    }
}
