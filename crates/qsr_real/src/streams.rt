use qsr_outside::{Failed, Sink, Source};
use std::io::{Read, Stdin, Stdout, Write};

/// Standard input. It tells nothing of its bytes.
#[derive(Debug, Drop)]
pub struct StdSource {
    input: Stdin,
    given: u64,
    faults: u64,
}

/// Standard output. It tells nothing of its bytes.
#[derive(Debug, Drop)]
pub struct StdSink {
    output: Stdout,
    faults: u64,
}

impl StdSource {
    /// Standard input, of which no byte was read yet.
    pub fn new(input: Stdin) -> StdSource {
        StdSource {
            input,
            given: 0,
            faults: 0,
        }
    }
}

impl StdSink {
    /// Standard output, to which no byte was written yet.
    pub fn new(output: Stdout) -> StdSink {
        StdSink { output, faults: 0 }
    }
}

impl Source for StdSource {
    ghost use Rattle.std.specs.Prelude.{None};

    ghost documents = { λ _. None };

    ghost absent_openings = { λ _. 0 };

    ghost left = { λ _. None };

    ghost given = { λ s. s.given };

    ghost faults = { λ s. s.faults };

    fn read(&mut self, buf: &mut [u8]) -> Result<usize, Failed> {
        match self.input.read(buf) {
            Ok(n) => {
                self.given = self.given.saturating_add(n as u64);
                Ok(n)
            }
            Err(_) => {
                self.faults = self.faults.saturating_add(1);
                Err(Failed)
            }
        }
    }
}

impl Sink for StdSink {
    ghost use Rattle.std.specs.Prelude.{None};

    ghost held = { λ _. None };

    ghost faults = { λ s. s.faults };

    fn write(&mut self, piece: &[u8]) -> Result<usize, Failed> {
        match self.output.write(piece) {
            Ok(n) if n > 0 || piece.is_empty() => Ok(n),
            _ => {
                self.faults = self.faults.saturating_add(1);
                Err(Failed)
            }
        }
    }
}
