//! The order in which queued edges are proposed. Nothing is promised of it, and nothing rests on it but the time that
//! closing takes: who takes a proposal looks whether that edge is queued.
//!
//! - [`Proposals::Least`]: those with the fewest base relations first, since they restrict most (van Beek and Manchak
//!   1996), and among those the one that has waited longest: so what is given is looked at before what was derived from
//!   it.
//! - [`Proposals::Oldest`]: the one that has waited longest, where few are queued. It takes a quarter of the room.
//!
//! The place of an edge is `i * width + j`, where the width is the least power of two of 16 and more that the nodes
//! fit in: so the room for few nodes is small, and a place is taken apart without a division.

ghost use Rattle.std.specs.Prelude.{◌<◌, ◌≤◌};

use calculus_table::Memory;
use compose_fast::filled;
use std::alloc::Global;

/// No place. No edge has this place, since it would be of a node with itself. With 255 nodes and more there is a link
/// of this place all the same, so that it is asked for by itself.
const NONE: u16 = 65535;

/// No list.
const NO_LIST: u32 = 64;

/// The power of two that is the width for so many nodes.
fn shift_for(nodes: u32) -> u32
    ensures { result ≤ 8 }
{
    match nodes {
        0..=16 => 4,
        17..=32 => 5,
        33..=64 => 6,
        65..=128 => 7,
        _ => 8,
    }
}

/// Where a place stands in its list.
#[derive(Clone, Copy, Debug, Drop)]
struct Link {
    /// The place after it.
    next: u16,
    /// The place before it.
    back: u16,
    /// The number of the list.
    list: u32,
}

/// A place that stands in no list.
const UNLINKED: Link = Link {
    next: NONE,
    back: NONE,
    list: NO_LIST,
};

/// Doubly linked lists of places, one for each number of base relations.
#[derive(Debug, Drop)]
pub struct Order {
    shift: u32,
    links: Vec<Link>,
    first: [u16; 64],
    last: [u16; 64],
    some: u64,
}

impl Order {
    /// Empty lists for the edges of so many nodes.
    pub fn new(alloc: Global, nodes: u32) -> Result<Order, Memory>
        requires { nodes ≤ 256 }
    {
        let shift = shift_for(nodes);
        let blocks = ((nodes << shift) / 256 + 1) as usize;
        Ok(Order {
            shift,
            links: filled(alloc, UNLINKED, blocks)?,
            first: [NONE; 64],
            last: [NONE; 64],
            some: 0,
        })
    }

    /// Whether the lists are empty.
    pub fn is_empty(&self) -> bool {
        self.some == 0
    }

    /// Empties the lists.
    pub fn clear(&mut self) {
        self.links.fill(UNLINKED);
        self.first = [NONE; 64];
        self.last = [NONE; 64];
        self.some = 0;
    }

    /// Puts the edge from `i` to `j` at the end of the list of its number of base relations, out of another.
    #[inline(always)]
    pub fn put(&mut self, i: u32, j: u32, members: u32) {
        let place = (((i << self.shift % 32) | j) & 65535) as u16;
        let list = members.saturating_sub(1) % 64;
        let Some(link) = self.links.get(usize::from(place)) else {
            return;
        };
        if link.list == list {
            return;
        }
        if link.list != NO_LIST {
            self.unlink(place);
        }
        self.link(place, list);
    }

    /// Puts a place at the end of a list.
    #[inline(always)]
    fn link(&mut self, place: u16, list: u32)
        requires { list < 64 }
    {
        let back = self.last[list as usize];
        self.last[list as usize] = place;
        if let Some(link) = self.links.get_mut(usize::from(place)) {
            *link = Link {
                next: NONE,
                back,
                list,
            };
        }
        if back == NONE {
            self.first[list as usize] = place;
            self.some |= 1 << list;
        } else if let Some(before) = self.links.get_mut(usize::from(back)) {
            before.next = place;
        }
    }

    /// Takes a place out of its list.
    fn unlink(&mut self, place: u16) {
        let Some(link) = self.links.get_mut(usize::from(place)) else {
            return;
        };
        let Link { next, back, list } = *link;
        *link = UNLINKED;
        let list = list % 64;
        if next == NONE {
            self.last[list as usize] = back;
        } else if let Some(after) = self.links.get_mut(usize::from(next)) {
            after.back = back;
        }
        if back != NONE {
            if let Some(before) = self.links.get_mut(usize::from(back)) {
                before.next = next;
            }
            return;
        }
        self.first[list as usize] = next;
        if next == NONE {
            self.some &= !(1 << list);
        }
    }

    /// Takes the first place out of the first list that has one.
    #[inline(always)]
    fn take_place(&mut self) -> u16 {
        let list = (self.some.trailing_zeros() % 64) as usize;
        let place = self.first[list];
        let Some(link) = self.links.get_mut(usize::from(place)) else {
            return place;
        };
        let next = link.next;
        link.list = NO_LIST;
        self.first[list] = next;
        if next == NONE {
            self.last[list] = NONE;
            self.some &= self.some.wrapping_sub(1);
        } else if let Some(after) = self.links.get_mut(usize::from(next)) {
            after.back = NONE;
        }
        place
    }

    /// Takes an edge out of the first list that has one.
    #[inline(always)]
    pub fn take(&mut self) -> Option<(u32, u32)> {
        if self.some == 0 {
            return None;
        }
        let place = u32::from(self.take_place());
        let shift = self.shift % 32;
        let i = place >> shift;
        Some((i, place ^ (i << shift)))
    }
}

/// Places in the order in which they came, in a ring.
#[derive(Debug, Drop)]
pub struct Ring {
    places: Vec<u16>,
    head: usize,
    tail: usize,
}

impl Ring {
    /// An empty ring with room for each edge between so many nodes.
    fn new(alloc: Global, nodes: u32) -> Result<Ring, Memory> {
        Ok(Ring {
            places: filled(alloc, 0, nodes as usize / 2 + 1)?,
            head: 0,
            tail: 0,
        })
    }

    /// The index after this one.
    #[inline(always)]
    fn after(&self, index: usize) -> usize {
        let next = index.wrapping_add(1);
        if next < self.places.len() { next } else { 0 }
    }

    /// Puts an edge at the end.
    #[inline(always)]
    fn put(&mut self, i: u32, j: u32) {
        if let Some(place) = self.places.get_mut(self.tail) {
            *place = ((i << 8 | j) & 65535) as u16;
        }
        self.tail = self.after(self.tail);
    }

    /// Takes the edge that came first.
    #[inline(always)]
    fn take(&mut self) -> Option<(u32, u32)> {
        if self.head == self.tail {
            return None;
        }
        let place = u32::from(*self.places.get(self.head)?);
        self.head = self.after(self.head);
        Some((place >> 8, place & 255))
    }
}

/// Which of the queued edges is proposed next.
#[derive(Debug, Drop)]
pub enum Proposals {
    /// The one with the fewest base relations.
    Least(Order),
    /// The one that has waited longest.
    Oldest(Ring),
}

impl Proposals {
    /// Proposes the edges between so many nodes that have the fewest base relations first.
    pub fn least(alloc: Global, nodes: u32) -> Result<Proposals, Memory>
        requires { nodes ≤ 256 }
    {
        Ok(Proposals::Least(Order::new(alloc, nodes)?))
    }

    /// Proposes the edges between so many nodes that have waited longest first.
    pub fn oldest(alloc: Global, nodes: u32) -> Result<Proposals, Memory> {
        Ok(Proposals::Oldest(Ring::new(alloc, nodes)?))
    }

    /// Whether no edge is proposed.
    pub fn is_empty(&self) -> bool {
        match self {
            Proposals::Least(order) => order.is_empty(),
            Proposals::Oldest(ring) => ring.head == ring.tail,
        }
    }

    /// Proposes no edge.
    pub fn clear(&mut self) {
        match self {
            Proposals::Least(order) => order.clear(),
            Proposals::Oldest(ring) => ring.head = ring.tail,
        }
    }

    /// Proposes the edge from `i` to `j`, which has so many base relations, and may have been queued before.
    #[inline(always)]
    pub fn put(&mut self, i: u32, j: u32, members: u32, is_queued: bool) {
        match self {
            Proposals::Least(order) => order.put(i, j, members),
            Proposals::Oldest(ring) => {
                if !is_queued {
                    ring.put(i, j);
                }
            }
        }
    }

    /// The edge that is proposed next, which isn't proposed again.
    #[inline(always)]
    pub fn take(&mut self) -> Option<(u32, u32)> {
        match self {
            Proposals::Least(order) => order.take(),
            Proposals::Oldest(ring) => ring.take(),
        }
    }
}
