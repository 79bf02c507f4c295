//! What `sqlite_disk` asks of a file, of one that is only read.

ghost use Rattle.std.specs.Prelude.{◌≡◌, [], ◌∷◌, IsTrue, IfOk};
ghost use Rattle.sqlite_disk.specs.Events.{settled};

use crate::history::{Call, History};
use crate::layers::Layers;
use sqlite_disk::{Calls, Disk, Modelled, Unknown, is_no_room};
use std::alloc::Global;
use std::fs::File;
use std::io::{self, ErrorKind};

/// A file that is only read, or none, and what was written over it, in memory.
#[derive(Drop)]
pub struct Overlay {
    layers: Layers,
    history: History,
}

/// A disk of a database that writes no file.
pub type OverlayDisk = Modelled<Overlay, Unknown>;

// The room of an overlay is memory. So the tally of a disk tells that it was refused.
fn no_room(error: io::Error) -> io::Error {
    match error.kind() {
        ErrorKind::OutOfMemory => io::Error::from(ErrorKind::StorageFull),
        _ => error,
    }
}

impl Calls for Overlay {
    ghost history = { λ it. it.history.events };

    fn len(&mut self) -> io::Result<usize> {
        let len = self.layers.len();
        let call = Call::Measured {
            len: len as u64,
            is_ok: true,
        };
        self.history = self.history.with(&call, &[]);
        Ok(len)
    }

    fn read_some(&mut self, at: usize, buf: &mut [u8]) -> io::Result<usize> {
        let (place, asked) = (at as u64, buf.len() as u64);
        let answer = self.layers.read(at, buf);
        let (got, is_ok) = (*answer.as_ref().unwrap_or(&0), answer.is_ok());
        let call = Call::Read {
            at: place,
            asked,
            is_ok,
        };
        self.history = self.history.with(&call, &buf[..got]);
        answer
    }

    fn read_under(&mut self, key: u64, want: u64, at: usize, buf: &mut [u8]) -> io::Result<usize> {
        let (place, asked) = (at as u64, buf.len() as u64);
        let answer = self.layers.read(at, buf);
        let (got, is_ok) = (*answer.as_ref().unwrap_or(&0), answer.is_ok());
        let call = Call::ReadUnder {
            key,
            want,
            at: place,
            asked,
            is_ok,
        };
        self.history = self.history.with(&call, &buf[..got]);
        answer
    }

    fn write_some(&mut self, at: usize, bytes: &[u8]) -> io::Result<usize> {
        let answer = self.layers.write(at, bytes).map_err(no_room);
        let (count, is_ok) = match &answer {
            Ok(n) => (*n as u64, true),
            Err(error) => (u64::from(is_no_room(error)), false),
        };
        let call = Call::Written {
            at: at as u64,
            count,
            is_ok,
        };
        self.history = self.history.with(&call, bytes);
        answer
    }

    fn resize(&mut self, len: usize) -> io::Result<()> {
        let answer = self.layers.resize(len);
        let (count, is_ok) = match &answer {
            Ok(()) => (0, true),
            Err(error) => (u64::from(is_no_room(error)), false),
        };
        let call = Call::Cut {
            len: len as u64,
            count,
            is_ok,
        };
        self.history = self.history.with(&call, &[]);
        answer
    }

    // Nothing is written that could be lost.
    fn sync(&mut self) -> io::Result<()> {
        let call = Call::Flushed {
            count: 0,
            is_ok: true,
        };
        self.history = self.history.with(&call, &[]);
        Ok(())
    }
}

impl Overlay {
    /// Over a file that is open for reading, or over none. The file stays open as long as this is
    /// there. A write that wants memory finds no room, so that the tally of a disk tells it.
    pub fn over(alloc: Global, file: Option<File>, key: u64) -> io::Result<Overlay>
        ensures { IfOk result (λ it. it.history.events ≡ settled key ∷ []) }
    {
        Ok(Overlay {
            layers: Layers::over(alloc, file)?,
            history: History::begun(key),
        })
    }
}

/// The disk over such a file, with this key.
pub fn disk_over(
    alloc: Global,
    file: Option<File>,
    is_log: bool,
    key: u64,
) -> io::Result<OverlayDisk>
    ensures usable { IfOk result (λ disk. IsTrue (⟦<OverlayDisk as Disk>⟧.is_usable disk)) }
{
    let overlay = Overlay::over(alloc, file, key)?;
    Ok(Modelled::new(overlay, is_log, key))
}
