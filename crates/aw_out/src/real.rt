//! The trusted edge: standard input and output, whose bytes no contract sees.
ghost use Rattle.std.specs.Prelude.{◌≡◌, None};

use crate::edge::{Got, Put, Sink, Source};
use std::io;
use std::io::{Read, Write};

/// Standard input. Each read that the system refuses counts as a fault.
#[derive(Drop)]
pub struct StdSource<R: Input> {
    reader: R::Reader,
    faults: u64,
}

impl<R: Input> StdSource<R> {
    /// Standard input, of which no read has failed yet. It takes no memory.
    pub fn new(rt: &R) -> StdSource<R>
        ensures { ⟦<StdSource<R> as Source>⟧.faults result ≡ 0 }
    {
        StdSource {
            reader: rt.reader(),
            faults: 0,
        }
    }
}

impl<R: Input> Source for StdSource<R> {
    ghost left = { λ _. None };

    ghost faults = { λ s. s.faults };

    fn read(&mut self, buf: &mut [u8]) -> Got {
        match self.reader.read(buf) {
            Ok(0) => Got::End,
            Ok(n) => Got::Read(n),
            Err(_) => {
                self.faults = self.faults.saturating_add(1);
                Got::Failed
            }
        }
    }
}

/// Standard output. Each write that the system refuses, or of which it takes nothing, counts as a
/// fault.
#[derive(Drop)]
pub struct StdSink<'a, R: Print> {
    writer: io::Printer<'a, R>,
    faults: u64,
}

impl<'a, R: Print> StdSink<'a, R> {
    /// Standard output, of which no write has failed yet. It takes no memory.
    pub fn new(rt: &'a R) -> StdSink<'a, R>
        ensures { ⟦<StdSink<'a, R> as Sink>⟧.faults result ≡ 0 }
    {
        StdSink {
            writer: io::writer(rt),
            faults: 0,
        }
    }
}

impl<R: Print> Sink for StdSink<'_, R> {
    ghost written = { λ _. None };

    ghost faults = { λ s. s.faults };

    fn write(&mut self, b: &[u8]) -> Put {
        match self.writer.write(b) {
            Ok(0) | Err(_) => {
                self.faults = self.faults.saturating_add(1);
                Put::Failed
            }
            Ok(n) => Put::Took(n),
        }
    }
}
