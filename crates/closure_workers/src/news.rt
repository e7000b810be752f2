//! What those who narrow the words of one table tell each other: how many may still narrow, in which rows words became
//! less, and which row is swept next. Hints alone: nothing is promised of them, and no contract rests on them. A worker
//! that ends while others narrow costs a round, and one that goes on reading while none does costs time.

ghost use Rattle.std.specs.Prelude.{◌<◌, IfSome};

use crate::tuning::{LOOKS, YIELDS};
use slice_copy::Note;
use std::array;
use std::hint::spin_loop;
use std::sync::atomic::{AtomicU32, Ordering};
use std::thread::yield_now;

/// The most rows of a table.
const ROWS: usize = 256;

/// What is told of one table in one round: how many may still narrow, how often they told of words that they made less,
/// how often of each row, and how many rows were dealt out for the first sweep.
#[derive(Drop)]
pub struct News {
    busy: AtomicU32,
    told: AtomicU32,
    dealt: AtomicU32,
    rows: [AtomicU32; ROWS],
}

impl News {
    /// Nothing was told yet, and so many may narrow.
    pub fn of(busy: u32) -> News {
        News {
            busy: AtomicU32::new(busy),
            told: AtomicU32::new(0),
            dealt: AtomicU32::new(0),
            rows: array::from_fn(|_| AtomicU32::new(0)),
        }
    }

    /// One of them has nothing to look at any more.
    pub fn leave(&self) {
        self.busy.fetch_sub(1, Ordering::SeqCst);
    }

    /// Tells of words of the edges from this node to greater ones.
    pub fn tell(&self, row: u32) {
        self.raise(row);
        self.announce();
    }

    /// Lets those hear who look whether anything was told.
    pub(crate) fn announce(&self) {
        self.told.fetch_add(1, Ordering::SeqCst);
    }

    /// Counts one telling of a row. Returns how many there were before.
    fn raise(&self, row: u32) -> u32 {
        match self.rows[..].get(row as usize) {
            Some(count) => count.fetch_add(1, Ordering::SeqCst),
            None => 0,
        }
    }

    /// How often was told of a row.
    fn count_of(&self, row: u32) -> u32 {
        match self.rows[..].get(row as usize) {
            Some(count) => count.load(Ordering::SeqCst),
            None => 0,
        }
    }

    /// The next of so many rows that nobody took yet.
    pub(crate) fn next_row(&self, rows: u32) -> Option<u32>
        ensures { IfSome result (λ row. row < rows) }
    {
        let row = self.dealt.fetch_add(1, Ordering::SeqCst);
        if row < rows { Some(row) } else { None }
    }

    /// How often was told of anything.
    pub(crate) fn told(&self) -> u32 {
        self.told.load(Ordering::SeqCst)
    }

    /// Looks, as one who has nothing to look at meanwhile, until nobody has, or was told of more than so often. Returns
    /// whether nobody has, as far as it has looked.
    pub(crate) fn are_quiet(&self, told: u32) -> bool {
        self.leave();
        let are_quiet = self.look_on(told);
        self.busy.fetch_add(1, Ordering::SeqCst);
        are_quiet
    }

    /// Looks until nobody may narrow any more, or was told of more than so often.
    fn look_on(&self, told: u32) -> bool {
        for look in 0..LOOKS {
            let are_done = self.busy.load(Ordering::SeqCst) == 0;
            if self.told() != told {
                return false;
            }
            if are_done {
                return true;
            }
            if look % YIELDS == 0 {
                yield_now();
            } else {
                spin_loop();
            }
        }
        true
    }
}

/// How often one worker has heard of each row.
#[derive(Drop)]
pub(crate) struct Heard {
    rows: [u32; ROWS],
}

impl Heard {
    /// Nothing.
    pub(crate) fn nothing() -> Heard {
        Heard { rows: [0; ROWS] }
    }

    /// Whether was told of a row since this was asked last.
    pub(crate) fn is_new(&mut self, news: &News, row: u32) -> bool {
        let count = news.count_of(row);
        let rows = &mut self.rows[..];
        match rows.get_mut(row as usize) {
            Some(heard) if *heard != count => {
                *heard = count;
                true
            }
            _ => false,
        }
    }

    /// Tells the others of the rows in which words were narrowed along the triples of these notes, and hears that
    /// itself, unless others told of the row too.
    pub(crate) fn tell_noted(&mut self, news: &News, notes: &[Note]) {
        let mut last = None;
        for note in notes {
            let row = note.i.min(note.k);
            if last != Some(row) {
                self.raise(news, u32::from(row));
                last = Some(row);
            }
        }
        news.announce();
    }

    /// Counts one telling of a row, also as heard, unless others told of it since this one heard.
    fn raise(&mut self, news: &News, row: u32) {
        let count = news.raise(row);
        let rows = &mut self.rows[..];
        if let Some(heard) = rows.get_mut(row as usize)
            && *heard == count
        {
            *heard = count.wrapping_add(1);
        }
    }
}
