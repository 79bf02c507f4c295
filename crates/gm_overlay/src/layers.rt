//! A file's bytes, and those that were written over them.

ghost use Rattle.std.specs.Prelude.{◌≡◌, ◌≢◌, ◌<◌, ◌≤◌, ◌+◌, ◌^◌, ◌/◌, ◌%◌, ℕ, List, length, take, drop, Some, IfOk, OnOk};
ghost use Rattle.std.specs.Io.{ReadsAtMost};
ghost use Rattle.gm_overlay.specs.Written.{block_at, HasWithin, HasOver};

use std::alloc::Global;
use std::collections::BTreeMap;
use std::fs::File;
use std::io::{self, ErrorKind};
use std::os::unix::fs::FileExt;

// Where a byte is written, so many around it are taken into memory.
const BLOCK: usize = 4096;

// No file is longer.
const MAX_LEN: usize = (1 << 63) - 1;

// How often in a row a read is tried that signals interrupt.
const TRIES: u32 = 1000;

type Block = Box<[u8; BLOCK]>;

/// A file, or none, under what was written.
#[derive(Drop)]
pub(crate) struct Layers {
    file: Option<File>,
    // So many first bytes are the file's, if none is written over them. Those after them are 0.
    held: usize,
    len: usize,
    // By their places, counted in blocks. What of a block is past the end is 0.
    written: BTreeMap<usize, Block>,
    alloc: Global,
}

// One read, of some of the bytes.
fn read_some(file: &File, out: &mut [u8], offset: u64) -> io::Result<usize>
    ensures bound { ReadsAtMost result out.new }
{
    for _ in 0..TRIES {
        match file.read_at(out, offset) {
            Err(e) if e.kind() == ErrorKind::Interrupted => {}
            answer => return answer,
        }
    }
    Err(io::Error::from(ErrorKind::Interrupted))
}

// Fills all of this from the file, which has so many bytes there.
fn fill(file: &File, out: &mut [u8], offset: usize) -> io::Result<()> {
    let mut done = 0;
    // Each turn reads a byte at least.
    for _ in 0..out.len() {
        if done >= out.len() {
            return Ok(());
        }
        match read_some(file, &mut out[done..], offset.saturating_add(done) as u64)? {
            0 => return Err(io::Error::from(ErrorKind::UnexpectedEof)),
            count => done += count,
        }
    }
    if done < out.len() {
        return Err(io::Error::from(ErrorKind::UnexpectedEof));
    }
    Ok(())
}

// Lays bytes over a part of a block.
fn lay(block: &mut [u8; BLOCK], within: usize, bytes: &[u8])
    requires { within + length bytes.now ≤ 4096 }
    ensures { HasWithin block.new within bytes.now }
{
    block[within..within + bytes.len()].copy_from_slice(bytes);
}

impl Layers {
    pub(crate) fn over(alloc: Global, file: Option<File>) -> io::Result<Layers> {
        let len = match &file {
            Some(file) => usize::min(file.metadata()?.len() as usize, MAX_LEN),
            None => 0,
        };
        Ok(Layers {
            file,
            held: len,
            len,
            written: BTreeMap::new(alloc),
            alloc,
        })
    }

    pub(crate) fn len(&self) -> usize {
        self.len
    }

    // What is there if nothing is written over it.
    fn read_below(&self, at: usize, out: &mut [u8]) -> io::Result<()> {
        let count = usize::min(self.held.saturating_sub(at), out.len());
        let (below, past) = out.split_at_mut(count);
        past.fill(0);
        match &self.file {
            Some(file) => fill(file, below, at),
            None => {
                below.fill(0);
                Ok(())
            }
        }
    }

    // Reads some bytes, of one block at most.
    fn read_block(&self, at: usize, out: &mut [u8]) -> io::Result<usize>
        requires { 0 < length out.old }
        ensures count { IfOk result (λ n. (0 < n) × (n ≤ length out.old) × (at < 2 ^ 63)) }
        // Of a block in memory, its bytes.
        ensures back { IfOk result (λ n. (block : List ℕ)
            → block_at self.now (at / 4096) ≡ Some block
            → take n out.new ≡ take n (drop (at % 4096) block)) }
    {
        if at >= self.len || at > MAX_LEN {
            return Err(io::Error::from(ErrorKind::UnexpectedEof));
        }
        let within = at % BLOCK;
        let count = usize::min(usize::min(out.len(), BLOCK - within), self.len - at);
        match self.written.get(&(at / BLOCK)) {
            Some(block) => out[..count].copy_from_slice(&block[within..within + count]),
            None => self.read_below(at, &mut out[..count])?,
        }
        Ok(count)
    }

    /// Reads these bytes, as far as there are any.
    pub(crate) fn read(&self, at: usize, out: &mut [u8]) -> io::Result<usize>
        requires { 0 < length out.old }
        ensures count { IfOk result (λ n. (0 < n) × (n ≤ length out.old) × (at < 2 ^ 63)) }
    {
        let mut done = self.read_block(at, out)?;
        // Each turn reads a byte at least.
        for _ in 0..out.len() {
            if done >= out.len() || at.saturating_add(done) >= self.len {
                break;
            }
            done += self.read_block(at.saturating_add(done), &mut out[done..])?;
        }
        Ok(done)
    }

    // What is below the block at this place, in memory.
    fn copied(&self, place: usize) -> io::Result<Block> {
        let mut block = Box::new(self.alloc, [0; BLOCK])?;
        self.read_below(place.saturating_mul(BLOCK), &mut block[..])?;
        Ok(block)
    }

    // Takes the bytes into the block at this place.
    fn put(&mut self, place: usize, within: usize, bytes: &[u8]) -> io::Result<()>
        requires { within + length bytes.now ≤ 4096 }
        ensures taken { OnOk result (HasOver self.new place within bytes.now) }
        ensures others { (q : ℕ) → q ≢ place → block_at self.new q ≡ block_at self.old q }
    {
        if let Some(block) = self.written.get_mut(&place) {
            lay(block, within, bytes);
            return Ok(());
        }
        let mut block = self.copied(place)?;
        lay(&mut block, within, bytes);
        self.written.insert(place, block)?;
        Ok(())
    }

    /// Takes some of the bytes, of one block at most. Nothing is changed if that fails.
    pub(crate) fn write(&mut self, at: usize, bytes: &[u8]) -> io::Result<usize>
        requires { 0 < length bytes.now }
        ensures count { IfOk result (λ n. (0 < n) × (n ≤ length bytes.now) × (at < 2 ^ 63)) }
        ensures taken { IfOk result (λ n.
            HasOver self.new (at / 4096) (at % 4096) (take n bytes.now)) }
        ensures others { (q : ℕ) → q ≢ at / 4096 → block_at self.new q ≡ block_at self.old q }
    {
        if at > MAX_LEN - BLOCK {
            return Err(io::Error::from(ErrorKind::InvalidInput));
        }
        let (place, within) = (at / BLOCK, at % BLOCK);
        let count = usize::min(bytes.len(), BLOCK - within);
        self.put(place, within, &bytes[..count])?;
        self.len = usize::max(self.len, at + count);
        Ok(count)
    }

    /// What is cut off is 0 if it comes back.
    pub(crate) fn resize(&mut self, len: usize) -> io::Result<()> {
        if len > MAX_LEN {
            return Err(io::Error::from(ErrorKind::InvalidInput));
        }
        if len < self.len {
            let end = len.div_ceil(BLOCK);
            self.written.retain(|place, _| *place < end);
            if let Some(block) = self.written.get_mut(&(len / BLOCK)) {
                block[len % BLOCK..].fill(0);
            }
            self.held = usize::min(self.held, len);
        }
        self.len = len;
        Ok(())
    }
}
