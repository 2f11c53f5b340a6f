//! The lines of a log that comes in pieces.
ghost use Rattle.std.specs.Prelude.{◌≡◌, ◌≤◌, ◌∷◌, [], MatchOption, None, length};

use crate::fields::{Separator, next_part};
use crate::reading::{Shape, is_passed_over};
use a429_text::cut::without_byte_order_mark;

/// The lines of a log, with their numbers from 1, as long as some are left.
#[derive(Clone, Copy)]
pub struct Lines<'t> {
    /// What is left of the piece that is read.
    here: Option<&'t [u8]>,
    /// How many lines were taken.
    taken: usize,
    pieces: &'t [Vec<u8>],
    /// The number, from 0, of the first piece that was not begun.
    piece: usize,
    ghost within: { piece ≤ length pieces.now },
}

impl<'t> Lines<'t> {
    ghost use Rattle.a429_logs.specs.LogFields.{Takes};
    ghost use Rattle.std.specs.Prelude.{◌+◌, ◌<◌, if◌then◌else◌, IfSome, drop, nat_lt};
    ghost use Rattle.a429_logs.specs.Logs.{are_no_rows, are_passed, joined, lines_of, numbered, one_more};
    ghost use Rattle.a429_logs.specs.LogPieces.{IsBetweenIn, TakesHere, first_lines, left_in, lines_from, lines_in, next_in, pieces_in, taken_in, texts_in, texts_left};

    /// The lines of a first text, and then those of the pieces from this number on.
    #[tactic(auto, unfolding(crate::specs::LogPieces::left_in))]
    fn of_text(text: &'t [u8], pieces: &'t [Vec<u8>], piece: usize) -> Lines<'t>
        requires { piece ≤ length pieces.now }
        ensures lines { left_in result ≡ first_lines text.now (texts_in (drop piece pieces.now)) }
        ensures pieces { pieces_in result ≡ pieces.now }
        ensures next { next_in result ≡ piece }
    {
        Lines {
            here: Some(without_byte_order_mark(text)),
            taken: 0,
            pieces,
            piece,
        }
    }

    /// All lines of a log. A byte order mark at its beginning is left out.
    pub fn of(pieces: &'t [Vec<u8>]) -> Lines<'t>
        ensures lines { left_in result ≡ lines_of (joined (texts_in pieces.now)) }
        ensures pieces { pieces_in result ≡ pieces.now }
        ensures begun { 0 < length pieces.now → 0 < next_in result }
    {
        match pieces {
            [] => Lines::of_text(&[], pieces, 0),
            [first, ..] => Lines::of_text(first.as_slice(), pieces, 1),
        }
    }

    /// The lines of the later pieces of a log, after this number of lines.
    #[tactic(auto, unfolding(crate::specs::LogPieces::left_in))]
    pub fn after(taken: usize, pieces: &'t [Vec<u8>]) -> Lines<'t>
        ensures lines { left_in result ≡ numbered (one_more taken) (lines_in (texts_in pieces.now)) }
        ensures pieces { pieces_in result ≡ pieces.now }
        ensures begun { 0 < length pieces.now → 0 < next_in result }
    {
        let mut lines = Lines {
            here: None,
            taken,
            pieces,
            piece: 0,
        };
        lines.begin_piece();
        lines
    }

    /// Begins the next piece. Whether there is one.
    #[tactic(auto, unfolding(crate::specs::LogPieces::left_in))]
    pub fn begin_piece(&mut self) -> bool
        ensures begun { result ≡ nat_lt (next_in self.old) (length (pieces_in self.old)) }
        ensures next { next_in self.new ≡ (if result then next_in self.old + 1 else next_in self.old) }
        ensures pieces { pieces_in self.new ≡ pieces_in self.old }
        ensures lines { IsBetweenIn self.old → left_in self.new ≡ left_in self.old }
        ensures ended { IsBetweenIn self.new → left_in self.new ≡ [] }
    {
        if self.piece == self.pieces.len() {
            return false;
        }
        self.here = Some(self.pieces[self.piece].as_slice());
        self.piece += 1;
        true
    }

    /// Takes the next line of the piece that is read, with its number. `None` if no line is left of it.
    #[inline(always)]
    #[tactic(auto, unfolding(crate::specs::LogPieces::left_in))]
    pub fn next_here(&mut self) -> Option<(usize, &'t [u8])>
        ensures taken { TakesHere (λ line. (line.0, line.1.now)) result (left_in self.old) (left_in self.new) }
        ensures pieces { pieces_in self.new ≡ pieces_in self.old }
        ensures next { next_in self.new ≡ next_in self.old }
        ensures between { result ≡ None → IsBetweenIn self.old × IsBetweenIn self.new }
    {
        let text = next_part(Separator::LineFeed, &mut self.here)?;
        self.taken = self.taken.saturating_add(1);
        Some((self.taken, text))
    }

    /// What is left of the piece that is read. `None` if nothing is.
    #[inline(always)]
    #[tactic(auto, unfolding(crate::specs::LogPieces::left_in))]
    pub fn text(&self) -> Option<&'t [u8]>
        ensures { IfSome result (λ text. left_in self.now ≡ lines_from (one_more (taken_in self.now)) text.now (texts_left self.now)) }
    {
        self.here
    }

    /// Takes the first line of what is left of the piece, which ends before the line feed at this place. The answer is its number.
    #[inline(always)]
    #[tactic(auto, unfolding(crate::specs::LogPieces::left_in))]
    pub fn take_line(&mut self, text: &'t [u8], end: usize) -> usize
        requires { end < length text.now }
        ensures number { result ≡ one_more (taken_in self.old) }
        ensures lines { left_in self.new ≡ lines_from (one_more result) (drop (end + 1) text.now) (texts_left self.old) }
        ensures pieces { pieces_in self.new ≡ pieces_in self.old }
        ensures next { next_in self.new ≡ next_in self.old }
    {
        self.here = Some(&text[end + 1..]);
        self.taken = self.taken.saturating_add(1);
        self.taken
    }

    /// Takes the next line, with its number. `None` if no line is left.
    pub fn next(&mut self) -> Option<(usize, &'t [u8])>
        ensures taken { Takes (λ line. (line.0, line.1.now)) result (left_in self.old) (left_in self.new) }
        ensures pieces { pieces_in self.new ≡ pieces_in self.old }
        ensures next { next_in self.old ≤ next_in self.new }
    {
        let line = self.next_here();
        if line.is_some() {
            return line;
        }
        self.begin_piece();
        self.next_here()
    }

    /// Leaves nothing.
    #[tactic(auto, unfolding(crate::specs::LogPieces::left_in))]
    pub fn end(&mut self)
        ensures lines { left_in self.new ≡ [] }
        ensures pieces { pieces_in self.new ≡ pieces_in self.old }
        ensures next { next_in self.new ≡ length (pieces_in self.old) }
        ensures between { IsBetweenIn self.new }
    {
        self.here = None;
        self.piece = self.pieces.len();
    }

    /// How many lines were taken.
    pub fn taken(&self) -> usize
        ensures { result ≡ taken_in self.now }
    {
        self.taken
    }

    /// The number, from 0, of the first piece that was not begun.
    pub fn next_piece(&self) -> usize
        ensures next { result ≡ next_in self.now }
        ensures within { result ≤ length (pieces_in self.now) }
    {
        self.piece
    }

    /// How many bytes are left.
    pub fn bytes_left(&self) -> usize {
        let mut bytes = match self.here {
            Some(text) => text.len(),
            None => 0,
        };
        for piece in &self.pieces[self.piece..] {
            bytes = bytes.saturating_add(piece.len());
        }
        bytes
    }

    /// Whether all lines that are left are passed over.
    pub fn are_passed(mut self) -> bool
        ensures { result ≡ are_passed (left_in self.entry) }
    {
        while let Some((line, text)) = self.next() {
            if !is_passed_over(text) {
                return false;
            }
        }
        true
    }

    /// Whether no line that is left is a row. The last one may be cut.
    pub fn are_no_rows(mut self, shape: &Shape) -> bool
        ensures { result ≡ are_no_rows shape.now (left_in self.entry) }
    {
        while let Some((line, text)) = self.next() {
            if !shape.is_no_row(text) {
                return shape.is_short(text) && self.are_passed();
            }
        }
        true
    }
}
