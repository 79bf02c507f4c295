//! The lines of a batch: at most 131,072 bytes each, whatever the input is.

ghost use Rattle.std.specs.Prelude.{◌≡◌, ◌<◌, ◌≤◌, ◌++◌, ℕ, true, List, length, take, slice_index, IfSome, IfOk, nat_lt, if◌then◌else◌};
ghost use Rattle.gm_lines.specs.Asked.{IsAheadIn, IsNext};
ghost use Rattle.gm_lines.specs.Input.{is_one_line, Fits, IsCopied, IsLine, IsPiece, IsTaken, TakesPiece};

use crate::ahead::{Ahead, read_ahead};
use memchr::memchr;
use std::alloc::Global;
use std::io::{self, BufRead, ErrorKind};

/// The most bytes of a line, without its line feed.
pub const MAX_LINE: usize = 131_072;

/// What stood at the front of an input.
#[derive(Clone, Copy, Debug, PartialEq, Eq)]
pub enum Line {
    /// Nothing: the input has ended.
    End,
    /// A line of so many bytes, without its line feed.
    Whole(usize),
    /// A line of more than 131,072 bytes.
    Long,
}

/// A line that was taken, and the command of the next one, if the reader had it ready.
#[derive(Debug, Drop)]
pub struct TakenLine {
    pub found: Line,
    pub next: Option<Ahead>,
}

/// What a reader had ready of a line.
#[derive(Clone, Copy, Debug, PartialEq, Eq)]
enum Piece {
    /// Nothing: the input has ended.
    Nothing,
    /// Its line feed.
    Feed,
    /// Bytes of it: so many are counted now.
    Bytes(usize),
}

/// A piece that was taken, and the command of the next line, if the reader had it ready.
#[derive(Debug, Drop)]
struct TakenPiece {
    piece: Piece,
    next: Option<Ahead>,
}

/// How many bytes there are before the first line feed.
pub(crate) fn length_before_feed(bytes: &[u8]) -> usize
    ensures bound { result ≤ length bytes.now }
    ensures line { is_one_line (take result bytes.now) ≡ true }
    ensures feed { result < length bytes.now → slice_index bytes.now result ≡ 10 }
{
    memchr(b'\n', bytes).unwrap_or(bytes.len())
}

// How many of the bytes are a piece: those before the first line feed, or the line feed alone if it
// comes first.
fn piece_length(bytes: &[u8]) -> usize
    ensures bound { result ≤ length bytes.now }
    ensures some { 0 < length bytes.now → 0 < result }
    ensures piece { IsPiece (take result bytes.now) }
{
    let length = length_before_feed(bytes);
    if length == 0 {
        bytes.len().min(1)
    } else {
        length
    }
}

// Puts bytes at the end of a line of which `count` bytes are there, and counts them up to 131,073.
fn put(line: &mut [u8], count: usize, bytes: &[u8]) -> usize
    requires { length line.old ≡ 131072 }
    ensures { (seen : List ℕ) → IsCopied line.old count seen
        → IsCopied line.new result (seen ++ bytes.now) }
{
    let end = count.saturating_add(bytes.len());
    if end > MAX_LINE {
        return MAX_LINE + 1;
    }
    line[count..end].copy_from_slice(bytes);
    end
}

// Takes a piece to a line of which `count` bytes are there.
fn taken(line: &mut [u8], count: usize, piece: &[u8]) -> Piece
    requires room { length line.old ≡ 131072 }
    requires piece { IsPiece piece.now }
    ensures { IsTaken piece.now line.old line.new count result }
{
    match piece {
        [] => Piece::Nothing,
        [b'\n', ..] => Piece::Feed,
        _ => Piece::Bytes(put(line, count, piece)),
    }
}

// The command that follows a line feed, by what the reader has ready after it. Without memory it
// isn't looked for.
fn next_of(alloc: Option<Global>, piece: Piece, behind: &[u8]) -> Option<Ahead>
    ensures { IfSome result (IsAheadIn behind.now) }
{
    match (piece, alloc) {
        (Piece::Feed, Some(alloc)) => read_ahead(alloc, behind),
        _ => None,
    }
}

// Takes the next piece to a line of which `count` bytes are there: what the reader has ready. Reads
// also the command that follows.
fn next_piece<R: BufRead>(
    alloc: Option<Global>,
    reader: &mut R,
    line: &mut [u8],
    count: usize,
) -> io::Result<TakenPiece>
    requires { length line.old ≡ 131072 }
    ensures piece { IfOk result (λ it. TakesPiece (R.remaining reader.old) (R.remaining reader.new)
        line.old line.new count it.piece) }
    ensures next { IfOk result (λ it.
        IfSome it.next (IsNext (R.remaining reader.old) (R.remaining reader.new))) }
{
    let ready = match reader.fill_buf() {
        Ok(ready) => ready,
        Err(e) if e.kind() == ErrorKind::Interrupted => return Ok(TakenPiece {
            piece: Piece::Bytes(count),
            next: None,
        }),
        Err(e) => return Err(e),
    };
    let length = piece_length(ready);
    let piece = taken(line, count, &ready[..length]);
    let next = next_of(alloc, piece, &ready[length..]);
    reader.consume(length);
    Ok(TakenPiece { piece, next })
}

// A line of which so many bytes were counted, up to 131,073.
fn found(count: usize) -> Line
    ensures { result ≡ (if nat_lt count 131073 then Line.Whole count else Line.Long) }
{
    if count <= MAX_LINE {
        Line::Whole(count)
    } else {
        Line::Long
    }
}

// The same at the end of the input, where no bytes are no line.
fn ended(count: usize) -> Line
    ensures { result ≡ (if nat_lt 0 count
        then (if nat_lt count 131073 then Line.Whole count else Line.Long) else Line.End) }
{
    if count > 0 { found(count) } else { Line::End }
}

/// Takes the next line as `next_line` does. With memory, it also reads the command of the line
/// after it, if that is a whole line that asks one under a key: the reader isn't asked for more
/// than it has ready.
pub fn take_line<R: BufRead>(
    alloc: Option<Global>,
    reader: &mut R,
    line: &mut [u8],
) -> io::Result<TakenLine>
    requires { length line.old ≡ 131072 }
    ensures line { IfOk result (λ it. IfSome (R.remaining reader.old) (λ bytes.
        IsLine bytes (R.remaining reader.new) line.new it.found)) }
    ensures fits { IfOk result (λ it. Fits it.found) }
    ensures next { IfOk result (λ it.
        IfSome it.next (IsNext (R.remaining reader.old) (R.remaining reader.new))) }
{
    let mut count = 0usize;
    for _ in 0..u64::MAX {
        let taken = next_piece(alloc, reader, line, count)?;
        match taken.piece {
            Piece::Nothing => return Ok(TakenLine {
                found: ended(count),
                next: None,
            }),
            Piece::Feed => return Ok(TakenLine {
                found: found(count),
                next: taken.next,
            }),
            Piece::Bytes(counted) => count = counted,
        }
    }
    Err(io::Error::from(ErrorKind::Other))
}

/// Takes the next line, with its line feed, into a buffer of `MAX_LINE` bytes; a longer line is
/// taken whole too, and tells only that it is longer. The last line may lack its line feed. Fails
/// if the reader does; what was read of a line is then gone.
pub fn next_line<R: BufRead>(reader: &mut R, line: &mut [u8]) -> io::Result<Line>
    requires { length line.old ≡ 131072 }
    ensures line { IfOk result (λ found. IfSome (R.remaining reader.old) (λ bytes.
        IsLine bytes (R.remaining reader.new) line.new found)) }
    ensures fits { IfOk result Fits }
{
    let taken = take_line(None, reader, line)?;
    Ok(taken.found)
}
