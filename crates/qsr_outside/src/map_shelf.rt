ghost use Rattle.std.specs.Prelude.{◌≡◌, ◌↔◌, ◌⊎◌, ◌++◌, ◌<◌, ◌≤◌, [], None, Some, Contains, length, min, take, drop};
ghost use Rattle.std.specs.Prelude.{position, slice_get, unwrap_or, IfOk, IfNone, IfSome, IsErr, OnErr, OnOk};
ghost use Rattle.std.specs.FinMap as map;
ghost use Rattle.std.specs.Io.KnownBytes.{Consumes};
ghost use Rattle.qsr_outside.specs.Counts.{count_after, Rose, RoseBy};
ghost use Rattle.qsr_outside.specs.Documents.{absent_openings_after, document, CountsOpening};
ghost use Rattle.qsr_outside.specs.InMemory.{after_call, after_failed_call, no_calls};

use crate::calls::Calls;
use crate::failures::{Failed, Memory};
use crate::reading::Source;
use crate::shelves::Shelf;
use std::alloc::Global;
use std::marker::Model;

/// A document and its name.
#[derive(Drop)]
struct Document {
    name: Vec<u8>,
    bytes: Vec<u8>,
}

/// Which of the stored documents is open, and how much of it was given.
#[derive(Clone, Copy)]
struct Opened {
    index: usize,
    at: usize,
}

/// A shelf in memory, that fails where it is told to or where an absent name is opened. Its opens are
/// counted with its reads. While no document is open, a read returns no byte.
#[derive(Drop)]
pub struct MapShelf {
    documents: Vec<Document>,
    opened: Option<Opened>,
    given: u64,
    absent_openings: u64,
    calls: Calls,
}

impl Model for MapShelf {
    ghost use Rattle.qsr_outside.specs.InMemory.{MapShelfState, map_shelf_code};

    ghost Value = { MapShelfState };

    ghost coded = { map_shelf_code };

    ghost use Rattle.qsr_outside.specs.StoredDocuments.{documents_of, left_of, IsOpenIn};

    ghost view = { λ s. record {
      documents = documents_of s.documents.items;
      left = left_of s.documents.items s.opened;
      given = s.given;
      absent_openings = s.absent_openings;
      calls = s.calls;
    } };

    ghost invariant = { λ s. IsOpenIn s.documents.items s.opened };
}

impl MapShelf {
    ghost use Rattle.qsr_outside.specs.StoredDocuments.{bytes_of, documents_of, is_named};

    /// A shelf with no document. The calls whose numbers, from 0, are in `failing` fail.
    pub fn new(alloc: Global, failing: &[u32]) -> Result<Self, Memory>
        ensures { IfOk result (λ s. s ≡ record {
          documents = map.empty;
          left = [];
          given = 0;
          absent_openings = 0;
          calls = no_calls failing.now;
        }) }
    {
        Ok(MapShelf {
            documents: Vec::new(alloc),
            opened: None,
            given: 0,
            absent_openings: 0,
            calls: Calls::new(alloc, failing)?,
        })
    }

    /// Puts a document under its name, in place of one that has the name. What is left of an open
    /// document stays.
    pub fn put(&mut self, name: &str, bytes: &[u8]) -> Result<(), Memory>
        ensures ok { OnOk result (self.new ≡ record self.old {
          documents = map.insert self.old.documents name.now bytes.now;
        }) }
        ensures err { OnErr result (self.new ≡ self.old) }
    {
        let alloc = *self.documents.allocator();
        let name = Vec::from_slice(alloc, name.as_bytes()).map_err(|_| Memory)?;
        let bytes = Vec::from_slice(alloc, bytes).map_err(|_| Memory)?;
        self.documents
            .insert(0, Document { name, bytes })
            .map_err(|_| Memory)?;
        if let Some(opened) = &mut self.opened {
            opened.index += 1;
        }
        Ok(())
    }

    /// The bytes that are left of the open document, or none where none is open.
    pub fn left(&self) -> &[u8]
        ensures { result.now ≡ self.now.left }
    {
        match self.opened {
            None => &[],
            Some(opened) => &self.documents[opened.index].bytes[opened.at..],
        }
    }

    /// How many bytes were given.
    pub fn given(&self) -> u64
        ensures { result ≡ self.now.given }
    {
        self.given
    }

    /// How often a name that no document has was opened.
    pub fn absent_openings(&self) -> u64
        ensures { result ≡ self.now.absent_openings }
    {
        self.absent_openings
    }

    /// How many calls failed.
    pub fn faults(&self) -> u64
        ensures { result ≡ self.now.calls.faults }
    {
        self.calls.faults()
    }

    /// The place of the newest document of this name.
    fn find(documents: &[Document], name: &[u8]) -> Option<usize>
        ensures place { result ≡ position (is_named name.now) documents.now }
        ensures found { IfSome result (λ k. document (documents_of documents.now) name.now
            ≡ Some (bytes_of (slice_get documents.now k))) }
        ensures absent { IfNone result (document (documents_of documents.now) name.now ≡ None) }
    {
        documents
            .iter()
            .position(|document| name == document.name.as_slice())
    }

    /// Gives `n` of the bytes that are left.
    fn advance(&mut self, n: usize)
        requires { n ≤ length self.old.left }
        ensures { self.new ≡ record self.old {
          left = drop n self.old.left;
          given = count_after self.old.given n;
        } }
    {
        self.given = self.given.saturating_add(n as u64);
        if let Some(opened) = &mut self.opened {
            opened.at += n;
        }
    }

    /// Closes the document that is open, since a call failed.
    fn close(&mut self)
        ensures closed { self.new ≡ record self.old {
          left = [];
          calls = record self.old.calls { faults = count_after self.old.calls.faults 1 };
        } }
        ensures never_falls { self.old.calls.faults ≤ self.new.calls.faults }
    {
        self.opened = None;
        self.calls.count_fault();
    }
}

impl Source for MapShelf {
    ghost documents = { λ s. Some s.documents };

    ghost absent_openings = { λ s. s.absent_openings };

    ghost left = { λ s. Some s.left };

    ghost given = { λ s. s.given };

    ghost faults = { λ s. s.calls.faults };

    fn read(&mut self, buf: &mut [u8]) -> Result<usize, Failed>
        requires { 0 < length buf.old }
        ensures fails { IsErr result ↔ Contains self.old.calls.failing self.old.calls.made }
        ensures failed { OnErr result
            (self.new ≡ record self.old { calls = after_failed_call self.old.calls }) }
        ensures failed_buffer { OnErr result (buf.new ≡ buf.old) }
        ensures count { IfOk result (λ n. n ≡ min (length buf.old) (length self.old.left)) }
        ensures bytes { IfOk result (λ n. buf.new ≡ take n self.old.left ++ drop n buf.old) }
        ensures rest { IfOk result (λ n. self.new ≡ record self.old {
          left = drop n self.old.left;
          given = count_after self.old.given n;
          calls = after_call self.old.calls;
        }) }

        ensures within { IfOk result (λ n. n ≤ length buf.new) }
        ensures gives { IfOk result
            (λ n. Consumes (Some self.old.left) (Some self.new.left) (take n buf.new)) }
        ensures ends_where_none_left { IfOk result (λ n. (n ≡ 0) ↔ (self.old.left ≡ [])) }
        ensures end_leaves_none { IfOk result (λ n. n ≡ 0 → self.new.left ≡ []) }
        ensures counts { IfOk result (λ n. RoseBy self.old.given self.new.given n) }
        ensures failed_is_counted { OnErr result
            (Rose self.old.calls.faults self.new.calls.faults) }
        ensures faults_never_fall { self.old.calls.faults ≤ self.new.calls.faults }
    {
        if self.calls.begin() {
            self.calls.count_fault();
            return Err(Failed);
        }
        let left = self.left();
        let n = left.len().min(buf.len());
        buf[..n].copy_from_slice(&left[..n]);
        self.advance(n);
        Ok(n)
    }
}

impl Shelf for MapShelf {
    fn open(&mut self, name: &str) -> Result<(), Failed>
        ensures fails { IsErr result
            ↔ (Contains self.old.calls.failing self.old.calls.made
            ⊎ (document self.old.documents name.now ≡ None)) }
        ensures opened { OnOk result (self.new ≡ record self.old {
          left = unwrap_or (document self.old.documents name.now) [];
          calls = after_call self.old.calls;
        }) }
        ensures failed { OnErr result (self.new ≡ record self.old {
          left = [];
          absent_openings =
              absent_openings_after self.old.documents name.now self.old.absent_openings;
          calls = after_failed_call self.old.calls;
        }) }

        ensures opens { OnOk result (Some self.new.left ≡ document self.old.documents name.now) }
        ensures absent_fails { document self.old.documents name.now ≡ None → IsErr result }
        ensures failed_is_counted { OnErr result
            (Rose self.old.calls.faults self.new.calls.faults) }
        ensures counts_opening { CountsOpening (Some self.old.documents) name.now
            self.old.absent_openings self.new.absent_openings }
        ensures faults_never_fall { self.old.calls.faults ≤ self.new.calls.faults }
    {
        let is_listed = self.calls.begin();
        let Some(index) = Self::find(&self.documents, name.as_bytes()) else {
            self.absent_openings = self.absent_openings.saturating_add(1);
            self.close();
            return Err(Failed);
        };
        if is_listed {
            self.close();
            return Err(Failed);
        }
        self.opened = Some(Opened { index, at: 0 });
        Ok(())
    }
}
