//! Files in pieces. There is a line feed between each two pieces, which is in neither.
ghost use Rattle.std.specs.Prelude.{◌≡◌, ◌≢◌, ◌⊎◌, ◌∷◌, [], ◌++◌, IfSome, IfNone, IfOk, Err};
ghost use Rattle.std.specs.List.{All};
ghost use Rattle.a429_logs.specs.Logs.{joined};
ghost use Rattle.a429_console.specs.Files.{bytes_of};
ghost use Rattle.a429_console.specs.Readings.{answer_of, pieces_answer};

use crate::files::FileFault;
use std::alloc::{AllocError, Global};
use std::io;
use std::io::Read;

/// How many bytes are read into a piece at once: 8 MiB.
const PIECE: usize = 8_388_608;

/// The room for them. With one byte more, no piece grows only because its end is looked for.
const ROOM: usize = PIECE + 1;

/// The bytes before the last line feed, and those after it. `None` if there is no line feed.
pub fn cut_last_line(bytes: &[u8]) -> Option<(&[u8], &[u8])>
    ensures parts { IfSome result (λ p. bytes.now ≡ p.0.now ++ 10 ∷ p.1.now) }
    ensures last { IfSome result (λ p. All (λ b. b ≢ 10) p.1.now) }
    ensures none { IfNone result (All (λ b. b ≢ 10) bytes.now) }
{
    let mut at = bytes.len();
    while at > 0 {
        at -= 1;
        if bytes[at] == b'\n' {
            return Some((&bytes[..at], &bytes[at + 1..]));
        }
    }
    None
}

/// A file that was read as a whole, as one piece. Error: that of the answer, or an allocation failed.
pub fn in_one_piece(
    alloc: Global,
    answer: Result<Vec<u8>, FileFault>,
) -> Result<Vec<Vec<u8>>, FileFault>
    ensures { (pieces_answer result ≡ answer_of answer) ⊎ (pieces_answer result ≡ Err FileFault.NoMemory) }
{
    let mut pieces = Vec::new(alloc);
    match pieces.push(answer?) {
        Ok(()) => Ok(pieces),
        Err(_) => Err(FileFault::NoMemory),
    }
}

/// Room for what is read after these bytes, which are its beginning.
fn room_after(alloc: Global, bytes: &[u8]) -> Result<Vec<u8>, AllocError>
    ensures { IfOk result (λ room. room.items ≡ bytes.now) }
{
    let mut room = Vec::with_capacity(alloc, bytes.len().saturating_add(ROOM))?;
    room.extend_from_slice(bytes)?;
    Ok(room)
}

/// Ends a piece before its last line feed, and begins the next one with what comes after it. A piece without a line feed
/// goes on.
fn next_piece(
    alloc: Global,
    pieces: &mut Vec<Vec<u8>>,
    mut piece: Vec<u8>,
) -> Result<Vec<u8>, AllocError>
    ensures { IfOk result (λ next. joined (bytes_of (pieces.new.items ++ next ∷ []))
        ≡ joined (bytes_of (pieces.old.items ++ piece ∷ []))) }
{
    let Some((front, rest)) = cut_last_line(&piece) else {
        piece.reserve(piece.len().saturating_add(ROOM))?;
        return Ok(piece);
    };
    let (end, next) = (front.len(), room_after(alloc, rest)?);
    piece.truncate(end);
    piece.shrink_to_fit();
    pieces.push(piece)?;
    Ok(next)
}

/// What is left of a reader, in pieces. `None` if there are more than `most` bytes: the rest of them is not read.
pub(crate) fn read_in_pieces<I: Read + Drop>(
    alloc: Global,
    mut reader: I,
    most: usize,
) -> io::Result<Option<Vec<Vec<u8>>>> {
    let mut pieces = Vec::new(alloc);
    let mut piece = room_after(alloc, &[])?;
    let mut left = most.saturating_add(1);
    while left > 0 {
        // a long piece without a line feed doubles: it is not searched for one too often
        let asked = left.min(piece.len().max(PIECE));
        let count = reader.by_ref().take(asked as u64).read_to_end(&mut piece)?;
        if count < asked {
            piece.shrink_to_fit();
            pieces.push(piece)?;
            return Ok(Some(pieces));
        }
        left -= asked;
        piece = next_piece(alloc, &mut pieces, piece)?;
    }
    Ok(None)
}
