//! A worker: a part of a pass, a slice of the edges, and a copy of what the pass has seen, on which the slice is closed.
//!
//! Where most edges are stated the copy is swept, row by row; else it queues those edges. Then it closes the slice by
//! propagation, as a network is closed on one thread, and notes each triple along which it made a set smaller. The pass
//! narrows the words of the table along these triples in the same order, so that it has then seen what the copy has, or
//! less where others narrowed. When the copy has nothing left to look at, the words are read again of which others told,
//! and the copy takes over what became less, edge by edge. Where that brings nothing new, and the words are the copy's
//! sets, the slice is closed.
//!
//! The copy and its notes only propose. If the comparison fails, and the copy has nothing to take over, the slice is
//! closed without it (`slices`). Each other turn takes an edge off the copy's queue, or the pass has seen less, so that
//! there are few turns; but that isn't proved, and a bound on their number makes sure that they end.

ghost use Rattle.std.specs.Prelude.{◌≡◌, ℕ, ◌+◌, ◌-◌, ◌<◌, ◌≤◌, ◌⊎◌, true};
ghost use Rattle.network_words.specs.declared.TheConstants.{MAX_NODES};
ghost use Rattle.network_words.specs.Edge.{edge_count, edge_at};
ghost use Rattle.edge_table.specs.Opening.{algebra_of};
ghost use Rattle.slice_copy.specs.Copies.{IsSettledCopy, IsSweptCopy, TakesOver};
ghost use Rattle.closure_seq.specs.Paths.{IsClosedNetwork};
ghost use Rattle.closure_workers.specs.Slices.{HasClash, IsSliceClosed, IsLooking, LooksOn};
ghost use Rattle.closure_workers.specs.Workers.{IsWorker, IsReadyToWork, IsAtWork, WorksOn, IsKept, IsDesk, HasWorked, ComesTo};

use crate::news::{Heard, News};
use crate::slices::{Slice, close_slice, is_clash};
use crate::tuning::{READS, SWEEPS, TURNS};
use calculus_table::{Compose, Rel};
use edge_table::{OpenNet, Pass, Snapshot};
use network_words::{MAX_NODES, edge_between};
use slice_copy::{Note, SliceCopy, Sweep};

/// What all workers share: the table, its calculus, and what they tell each other.
#[derive(Drop)]
pub(crate) struct Site<'a, C: Compose> {
    pub(crate) table: &'a OpenNet,
    pub(crate) c: &'a C,
    pub(crate) news: &'a News,
    ghost fits: { C.algebra c.now ≡ algebra_of table.now.opening },
}

/// What a worker has for all rounds: its number, its slice, room for the words that it sees, a copy of the sets, and
/// whether that is settled for the slice.
#[derive(Drop)]
pub struct Desk {
    pub(crate) number: u32,
    pub(crate) slice: Slice,
    pub(crate) snap: Snapshot,
    pub(crate) copy: SliceCopy,
    pub(crate) is_settled: bool,
}

/// A worker in a round: its desk, its part of the pass, the rows that it has heard of, and how many words it narrowed
/// since it last counted them.
#[derive(Drop)]
pub struct Worker {
    pub(crate) pass: Pass,
    pub(crate) desk: Desk,
    pub(crate) heard: Heard,
    pub(crate) narrowed: usize,
}

/// What a turn on a copy came to.
#[derive(Clone, Copy, Debug, PartialEq, Eq)]
pub(crate) enum Turn {
    /// The slice is closed.
    Closed,
    /// Some set is empty.
    Clash,
    /// There may be more to look at.
    More,
    /// None of these is known.
    Unknown,
}

/// The edges from `i` to greater nodes: the number of the first one, and the one after that of the last. Where there
/// are none both are 0.
fn edges_of_row(nodes: u32, i: u32) -> (u32, u32)
    requires few { nodes ≤ MAX_NODES }
    requires below { i < nodes }
    ensures each { (k : ℕ) → i < k → k < nodes → edge_at nodes i k ≡ result.0 + (k - i - 1) }
    ensures count { result.1 ≡ result.0 + (nodes - i - 1) }
    ensures below { result.1 ≤ edge_count nodes }
{
    let count = nodes - i - 1;
    if count == 0 {
        return (0, 0);
    }
    let first = edge_between(nodes, i, i + 1);
    (first, first + count)
}

/// Whether most of these sets are less than `full`.
fn is_dense(words: &[u64], full: Rel) -> bool {
    let lesser = words.iter().filter(|word| **word != full.word()).count();
    lesser > words.len() / 2
}

/// What a set of the copy that became empty comes to.
fn after_empty(nodes: u32, words: &[u64]) -> Turn
    ensures clash { result ≡ Turn.Clash → HasClash nodes words.now }
    ensures known { result ≡ Turn.Clash ⊎ result ≡ Turn.Unknown }
{
    if is_clash(nodes, words) {
        Turn::Clash
    } else {
        Turn::Unknown
    }
}

/// Narrows along the triple of a note, if it is one.
fn narrow_note<C: Compose>(site: &Site<'_, C>, pass: &mut Pass, snap: &mut Snapshot, note: Note)
    requires looking { IsLooking site.now.table.now pass.old snap.old }
    ensures looks_on { LooksOn site.now.table.now pass.old pass.new snap.new }
{
    let nodes = site.table.nodes();
    let i = u32::from(note.i.min(note.k));
    let j = u32::from(note.j);
    let k = u32::from(note.i.max(note.k));
    if i >= k || k >= nodes || j >= nodes || j == i || j == k {
        return;
    }
    site.table.narrow_from(pass, site.c, snap, i, j, k);
}

/// Narrows along the triples of the notes, one after another.
fn narrow_noted<C: Compose>(
    site: &Site<'_, C>,
    pass: &mut Pass,
    snap: &mut Snapshot,
    notes: &[Note],
)
    requires looking { IsLooking site.now.table.now pass.old snap.old }
    ensures looks_on { LooksOn site.now.table.now pass.old pass.new snap.new }
{
    for note in notes {
        narrow_note(site, pass, snap, *note);
    }
}

impl Desk {
    /// Has the worker begin with the sets of a closed network, which the network that is to be closed lies within, so that
    /// it looks only at what is less.
    pub fn begin_closed<C: Compose>(&mut self, c: &C, nodes: u32, closed: &[u64])
        requires desk { IsDesk (C.algebra c.now) nodes self.old }
        requires closed { IsClosedNetwork (C.algebra c.now) nodes closed.now }
        ensures desk { IsDesk (C.algebra c.now) nodes self.new }
        ensures number { self.new.number ≡ self.old.number }
        ensures slice { self.new.slice ≡ self.old.slice }
        ensures settled { self.new.is_settled ≡ true }
    {
        let Slice { from, to } = self.slice;
        self.copy.begin_closed(c, closed, from, to);
        self.is_settled = true;
    }
}

impl Worker {
    /// Narrows the words as the copy was narrowed since its notes were forgotten, forgets them, and tells the others.
    fn follow<C: Compose>(&mut self, site: &Site<'_, C>)
        requires at_work { IsAtWork site.now.table.now self.old }
        ensures works_on { WorksOn site.now.table.now self.old self.new }
        ensures copy { TakesOver (algebra_of site.now.table.now.opening) self.old.desk.copy self.new.desk.copy }
    {
        let notes = self.desk.copy.notes();
        if notes.is_empty() {
            return;
        }
        narrow_noted(site, &mut self.pass, &mut self.desk.snap, notes);
        self.heard.tell_noted(site.news, notes);
        self.narrowed = self.narrowed.wrapping_add(notes.len());
        self.desk.copy.forget_notes();
    }

    /// Reads the word of each edge from `i` to a greater node again, and takes over into the copy what is less than the
    /// pass had seen. Returns whether some is.
    fn read_row<C: Compose>(&mut self, site: &Site<'_, C>, i: u32) -> bool
        requires at_work { IsAtWork site.now.table.now self.old }
        requires below { i < site.now.table.now.opening.nodes }
        ensures works_on { WorksOn site.now.table.now self.old self.new }
        ensures copy { TakesOver (algebra_of site.now.table.now.opening) self.old.desk.copy self.new.desk.copy }
    {
        let (first, end) = edges_of_row(site.table.nodes(), i);
        let mut from = first;
        while let Some((edge, set)) = site
            .table
            .next_lesser(&mut self.pass, &mut self.desk.snap, from, end)
        {
            self.desk
                .copy
                .meet_at(site.c, i, i + 1 + (edge - first), set);
            from = edge + 1;
        }
        from > first
    }

    /// Reads the words again of the rows that others told of, and takes over into the copy what is less than the pass
    /// had seen. Returns whether some is.
    fn read_news<C: Compose>(&mut self, site: &Site<'_, C>) -> bool
        requires at_work { IsAtWork site.now.table.now self.old }
        ensures works_on { WorksOn site.now.table.now self.old self.new }
        ensures copy { TakesOver (algebra_of site.now.table.now.opening) self.old.desk.copy self.new.desk.copy }
    {
        let mut less = false;
        for i in 0..site.table.nodes() {
            if self.heard.is_new(site.news, i) {
                less |= self.read_row(site, i);
            }
        }
        less
    }

    /// Reads the words again until some is less than the pass had seen, which the copy takes over, or no other worker
    /// has anything to look at. Returns whether some is.
    fn read_on<C: Compose>(&mut self, site: &Site<'_, C>) -> bool
        requires at_work { IsAtWork site.now.table.now self.old }
        ensures works_on { WorksOn site.now.table.now self.old self.new }
        ensures copy { TakesOver (algebra_of site.now.table.now.opening) self.old.desk.copy self.new.desk.copy }
    {
        for _time in 0..READS {
            let told = site.news.told();
            if self.read_news(site) {
                return true;
            }
            if site.news.are_quiet(told) {
                return false;
            }
        }
        false
    }

    /// Narrows the pairs of node `i` with greater nodes on the copy along the third nodes of a sweep, and the words as
    /// it did. Returns whether no set of the copy became empty.
    fn sweep_row<C: Compose>(&mut self, site: &Site<'_, C>, i: u32, sweep: Sweep) -> bool
        requires at_work { IsAtWork site.now.table.now self.old }
        requires below { i < site.now.table.now.opening.nodes }
        ensures works_on { WorksOn site.now.table.now self.old self.new }
        ensures swept { result ≡ true → sweep ≡ Sweep.Whole →
            IsSweptCopy (algebra_of site.now.table.now.opening) self.old.desk.copy i →
            IsSweptCopy (algebra_of site.now.table.now.opening) self.new.desk.copy (i + 1) }
        ensures rows { self.new.desk.copy.rows ≡ self.old.desk.copy.rows }
    {
        // The proof needs what every table keeps, which this call brings.
        let _nodes = site.table.nodes();
        let going_on = self.desk.copy.sweep_rows(site.c, i, i + 1, sweep);
        self.follow(site);
        going_on
    }

    /// Sweeps rows that no other worker took yet along the sets of few base relations, which restrict most, each with
    /// what others made less before. Returns whether no set of the copy became empty.
    fn sweep_dealt<C: Compose>(&mut self, site: &Site<'_, C>) -> bool
        requires at_work { IsAtWork site.now.table.now self.old }
        ensures works_on { WorksOn site.now.table.now self.old self.new }
    {
        let nodes = site.table.nodes();
        for _turn in 0..nodes {
            let Some(row) = site.news.next_row(nodes) else {
                return true;
            };
            self.read_news(site);
            if !self.sweep_row(site, row, Sweep::First) {
                return false;
            }
        }
        true
    }

    /// Sweeps the rows of the slice along all third nodes, with what others made less before. Returns whether no set of
    /// the copy became empty.
    fn sweep_slice<C: Compose>(&mut self, site: &Site<'_, C>) -> bool
        requires at_work { IsAtWork site.now.table.now self.old }
        ensures works_on { WorksOn site.now.table.now self.old self.new }
        ensures settled { result ≡ true →
            IsSettledCopy (algebra_of site.now.table.now.opening) self.new.desk.copy }
    {
        self.read_news(site);
        self.desk.copy.forget_queue();
        let (first, end) = self.desk.copy.rows();
        for i in first..end {
            if !self.sweep_row(site, i, Sweep::Whole) {
                return false;
            }
        }
        true
    }

    /// Sweeps: the rows of all slices as they are dealt out, and then those of its own, again as long as the last sweep
    /// made sets less more than half as often as the slice has edges: that is done sooner than looking at each of these
    /// edges by itself. Returns whether no set of the copy became empty.
    fn sweep<C: Compose>(&mut self, site: &Site<'_, C>) -> bool
        requires at_work { IsAtWork site.now.table.now self.old }
        ensures works_on { WorksOn site.now.table.now self.old self.new }
        ensures settled { result ≡ true →
            IsSettledCopy (algebra_of site.now.table.now.opening) self.new.desk.copy }
    {
        if !self.sweep_dealt(site) {
            return false;
        }
        let many = self.desk.slice.len() / 2;
        for _time in 1..SWEEPS {
            self.narrowed = 0;
            if !self.sweep_slice(site) {
                return false;
            }
            if self.narrowed <= many {
                return true;
            }
        }
        self.sweep_slice(site)
    }

    /// Closes the slice on the copy, narrows the words as it did, and reads what others told of if the copy has nothing
    /// left to look at, or has looked at many edges since.
    fn take_turn<C: Compose>(&mut self, site: &Site<'_, C>) -> Turn
        requires at_work { IsAtWork site.now.table.now self.old }
        requires settled { IsSettledCopy (algebra_of site.now.table.now.opening) self.old.desk.copy }
        ensures works_on { WorksOn site.now.table.now self.old self.new }
        ensures comes_to { ComesTo site.now.table.now self.new result }
    {
        let going_on = self.desk.copy.close_rows(site.c);
        self.follow(site);
        if !going_on {
            return after_empty(site.table.nodes(), self.desk.snap.words());
        }
        if !self.desk.copy.is_idle() {
            if self.desk.copy.is_due() {
                self.read_news(site);
            }
            return Turn::More;
        }
        if self.read_on(site) {
            return Turn::More;
        }
        self.compare(site)
    }

    /// Compares the words that were seen with the sets of the copy, which has nothing left to look at. Where they differ
    /// the copy takes the words over.
    fn compare<C: Compose>(&mut self, site: &Site<'_, C>) -> Turn
        requires at_work { IsAtWork site.now.table.now self.old }
        requires settled { IsSettledCopy (algebra_of site.now.table.now.opening) self.old.desk.copy }
        ensures works_on { WorksOn site.now.table.now self.old self.new }
        ensures comes_to { ComesTo site.now.table.now self.new result }
    {
        if self.desk.copy.matches(site.c, self.desk.snap.words()) {
            return Turn::Closed;
        }
        self.desk.copy.catch_up(site.c, self.desk.snap.words());
        if self.desk.copy.is_idle() {
            Turn::Unknown
        } else {
            Turn::More
        }
    }

    /// Takes turns until one tells that the slice is closed or that nothing is known, or there were too many.
    fn take_turns<C: Compose>(&mut self, site: &Site<'_, C>) -> Turn
        requires at_work { IsAtWork site.now.table.now self.old }
        requires settled { IsSettledCopy (algebra_of site.now.table.now.opening) self.old.desk.copy }
        ensures works_on { WorksOn site.now.table.now self.old self.new }
        ensures comes_to { ComesTo site.now.table.now self.new result }
    {
        for _turn in 0..TURNS {
            match self.take_turn(site) {
                Turn::More => {}
                turn => return turn,
            }
        }
        Turn::Unknown
    }

    /// Takes what the pass has seen over into the copy: one that is settled takes over what is less; else the edges that
    /// are stated are queued, unless most are, so that the slice is to be swept. Returns whether the copy is settled.
    fn begin<C: Compose>(&mut self, site: &Site<'_, C>) -> bool
        requires begins { IsReadyToWork site.now.table.now self.old }
        ensures works_on { WorksOn site.now.table.now self.old self.new }
        ensures settled { result ≡ true →
            IsSettledCopy (algebra_of site.now.table.now.opening) self.new.desk.copy }
    {
        let Slice { from, to } = self.desk.slice;
        let words = self.desk.snap.words();
        if self.desk.is_settled {
            self.desk.copy.catch_up(site.c, words);
            return true;
        }
        if is_dense(words, site.c.full()) {
            self.desk.copy.take_over(site.c, words, from, to);
            return false;
        }
        self.desk.copy.begin(site.c, words, from, to);
        true
    }

    /// Closes the slice on the copy, which is swept first if it isn't settled.
    fn turn_on_copy<C: Compose>(&mut self, site: &Site<'_, C>) -> Turn
        requires begins { IsReadyToWork site.now.table.now self.old }
        ensures works_on { WorksOn site.now.table.now self.old self.new }
        ensures comes_to { ComesTo site.now.table.now self.new result }
    {
        if self.begin(site) {
            return self.take_turns(site);
        }
        if self.sweep(site) {
            return self.take_turns(site);
        }
        after_empty(site.table.nodes(), self.desk.snap.words())
    }

    /// Closes the slice on the copy, and keeps whether the copy is settled for it. Returns whether the slice is closed or
    /// some set empty; else nothing is known.
    fn close_on_copy<C: Compose>(&mut self, site: &Site<'_, C>) -> bool
        requires begins { IsReadyToWork site.now.table.now self.old }
        ensures works_on { WorksOn site.now.table.now self.old self.new }
        ensures kept { IsKept site.now.table.now self.new }
        ensures closed { result ≡ true → IsSliceClosed (algebra_of site.now.table.now.opening)
            site.now.table.now.opening.nodes self.new.desk.snap self.new.desk.slice }
    {
        let turn = self.turn_on_copy(site);
        self.desk.is_settled = turn == Turn::Closed;
        turn == Turn::Closed || turn == Turn::Clash
    }

    /// Closes the edges of the slice among others who narrow the words too: what the pass has then seen is closed at each
    /// of them, or has an empty set while there are three or more nodes. It begins with a load of each word.
    pub(crate) fn close<C: Compose>(&mut self, site: &Site<'_, C>)
        requires worker { IsWorker site.now.table.now self.old }
        ensures worked { HasWorked site.now.table.now self.old self.new }
    {
        site.table.refresh(&mut self.pass, &mut self.desk.snap);
        if !self.close_on_copy(site) {
            let Slice { from, to } = self.desk.slice;
            close_slice(
                site.table,
                &mut self.pass,
                site.c,
                from,
                to,
                &mut self.desk.snap,
            );
        }
        site.news.leave();
    }
}
