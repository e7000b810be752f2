ghost use Rattle.std.specs.Prelude.{◌≡◌};

use qsr_outside::{Failed, Shelf, Source};
use std::fs;
use std::io::Read;
use std::rt::Files;

/// The files of the machine, by their names. It tells nothing of their bytes.
#[derive(Drop)]
pub struct FileShelf<'a, R: Files> {
    files: &'a R,
    opened: Option<R::File>,
    given: u64,
    faults: u64,
}

impl<'a, R: Files> FileShelf<'a, R> {
    /// A shelf of which no file is open yet.
    pub fn new(files: &'a R) -> Self {
        FileShelf {
            files,
            opened: None,
            given: 0,
            faults: 0,
        }
    }
}

impl<R: Files> Source for FileShelf<'_, R> {
    ghost use Rattle.std.specs.Prelude.{None};

    ghost documents = { λ _. None };

    ghost absent_openings = { λ _. 0 };

    ghost left = { λ _. None };

    ghost given = { λ s. s.given };

    ghost faults = { λ s. s.faults };

    /// Reads the open file, and closes it at its end: where standard input was closed when the program began, the file
    /// has its descriptor. While none is open there is no byte.
    fn read(&mut self, buf: &mut [u8]) -> Result<usize, Failed> {
        let Some(file) = &mut self.opened else {
            return Ok(0);
        };
        match file.read(buf) {
            Ok(n) => {
                if n == 0 {
                    self.opened = None;
                }
                self.given = self.given.saturating_add(n as u64);
                Ok(n)
            }
            Err(_) => {
                self.faults = self.faults.saturating_add(1);
                Err(Failed)
            }
        }
    }
}

impl<R: Files> Shelf for FileShelf<'_, R> {
    /// Opens the file of this name, a path from the folder in which the program runs.
    fn open(&mut self, name: &str) -> Result<(), Failed> {
        self.opened = None;
        match fs::open(self.files, name) {
            Ok(file) => {
                self.opened = Some(file);
                Ok(())
            }
            Err(_) => {
                self.faults = self.faults.saturating_add(1);
                Err(Failed)
            }
        }
    }
}
