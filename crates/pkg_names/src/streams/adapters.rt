//! Streams over the outside. They tell no bytes, and each failure raises their count.

ghost use Rattle.std.specs.Prelude.{◌≡◌};

use crate::streams::{Sink, SinkFailed, Source, SourceFailed};
use std::fs::File;
use std::io::{Read, Write};

/// A source over a file.
#[derive(Drop)]
pub struct FileSource {
    file: File,
    faults: u64,
}

impl FileSource {
    /// A source over what is left of the file.
    pub fn attach(file: File) -> FileSource
        ensures fresh { ⟦<FileSource as Source>⟧.faults result ≡ 0 }
    {
        FileSource { file, faults: 0 }
    }
}

impl Source for FileSource {
    ghost use Rattle.std.specs.Prelude.{None};

    ghost left = { λ _. None };

    ghost faults = { λ s. s.faults };

    fn take(&mut self, out: &mut [u8]) -> Result<usize, SourceFailed> {
        match self.file.read(out) {
            Ok(count) => Ok(count),
            Err(_) => {
                self.faults = self.faults.saturating_add(1);
                Err(SourceFailed)
            }
        }
    }
}

/// A sink over a writer, as standard output.
#[derive(Drop)]
pub struct OutSink<W: Write + Drop> {
    writer: W,
    faults: u64,
}

impl<W: Write + Drop> OutSink<W> {
    pub fn attach(writer: W) -> OutSink<W>
        ensures fresh { ⟦<OutSink<W> as Sink>⟧.faults result ≡ 0 }
    {
        OutSink { writer, faults: 0 }
    }
}

impl<W: Write + Drop> Sink for OutSink<W> {
    ghost use Rattle.std.specs.Prelude.{None};

    ghost written = { λ _. None };

    ghost faults = { λ s. s.faults };

    /// A writer that takes nothing has failed.
    fn give(&mut self, bytes: &[u8]) -> Result<usize, SinkFailed> {
        match self.writer.write(bytes) {
            Ok(count) if count > 0 => Ok(count),
            _ => {
                self.faults = self.faults.saturating_add(1);
                Err(SinkFailed)
            }
        }
    }
}
