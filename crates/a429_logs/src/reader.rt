//! Logs of words.
ghost use Rattle.std.specs.Prelude.{◌≡◌, ◌≤◌, ◌∷◌, [], MatchOption, None, length};

use crate::lines::Lines;
use crate::reading::{LineFault, OpeningLine, Reading, Shape};
use crate::rows::StatedWord;

/// A word of a log, and the number of its line, from 1.
#[derive(Clone, Copy)]
pub struct LogWord<'a> {
    pub line: usize,
    pub word: StatedWord<'a>,
}

/// The first faulty line of a log, by its number from 1, and what is wrong with it.
#[derive(Clone, Copy)]
pub struct LogFault {
    pub line: usize,
    pub why: LineFault,
}

/// The lines of a log that are no rows, other than the heading and those that every log may have.
#[derive(Clone, Copy)]
pub struct PassedOver {
    /// How many titles are above the heading.
    pub titles: usize,
    /// The number of the first line after the last row, from 1, if those after it are no rows. `None` as long as words are
    /// left.
    pub tail: Option<usize>,
}

/// How a log goes on after some of its pieces.
#[derive(Clone, Copy)]
pub struct LogPoint<'r> {
    reading: Reading<'r>,
    passed: PassedOver,
    /// How many lines were taken.
    taken: usize,
}

impl<'r> LogPoint<'r> {
    ghost use Rattle.a429_logs.specs.LogsLeft.{lines_before, reading_at, tail_at_point, titles_at};

    /// How many lines are before this point. The first line of the later pieces has the number after that.
    pub fn lines_before(&self) -> usize
        ensures { result ≡ lines_before self.now }
    {
        self.taken
    }

    /// What is passed over, if no piece is left.
    pub fn passed_over(&self) -> PassedOver
        ensures titles { result.titles ≡ titles_at self.now }
        ensures tail { result.tail ≡ tail_at_point self.now [] }
    {
        self.passed
    }

    /// How the first line of the next log is read, if no piece is left of this one.
    pub fn for_next_log(&self) -> Reading<'r>
        ensures { result ≡ reading_at self.now [] }
    {
        self.reading.for_next_log()
    }
}

/// The words of a log, as long as some are left. The log comes in pieces.
#[derive(Clone, Copy)]
pub struct LogReader<'r, 't> {
    reading: Reading<'r>,
    passed: PassedOver,
    lines: Lines<'t>,
}

impl<'r, 't> LogReader<'r, 't> {
    ghost use Rattle.a429_logs.specs.LogFields.{Takes};
    ghost use Rattle.std.specs.Prelude.{◌<◌, Err, IfSome, Option, Some, ℕ, option_map};
    ghost use Rattle.a429_logs.specs.LogDates.{or_second};
    ghost use Rattle.a429_logs.specs.Logs.{are_no_rows, are_passed, entry_then, heading_from, joined, lines_of, log_entries, next_log, past_then, reading_after};
    ghost use Rattle.a429_logs.specs.LogPieces.{TakesHere, texts_in};
    ghost use Rattle.a429_logs.specs.LogsLeft.{GoesOn, IsBetween, TailGoesOn, entries_at, entries_left, entry_of, is_tail_of, lines_left, next_of, pieces_of, reading_at, reading_left, shape_now, tail_at_point, tail_left, tail_of, tail_then, texts_after, titled_by, titles_at, titles_now, titles_of};
    ghost use Rattle.a429_logs.specs.declared.reading.Reading.{Reading};

    /// All lines of a log.
    fn of_lines(reading: Reading<'r>, pieces: &'t [Vec<u8>]) -> LogReader<'r, 't>
        ensures reading { result.reading ≡ reading.entry }
        ensures passed { result.passed ≡ record { titles = 0; tail = None } }
        ensures lines { lines_left result ≡ lines_of (joined (texts_in pieces.now)) }
        ensures pieces { pieces_of result ≡ pieces.now }
        ensures begun { 0 < length pieces.now → 0 < next_of result }
    {
        LogReader {
            reading,
            passed: PassedOver {
                titles: 0,
                tail: None,
            },
            lines: Lines::of(pieces),
        }
    }

    /// This reader, below this number of titles.
    fn with_titles(self, titles: usize) -> LogReader<'r, 't>
        ensures lines { lines_left result ≡ lines_left self.entry }
        ensures reading { result.reading ≡ self.entry.reading }
        ensures titles { result.passed.titles ≡ titles }
        ensures tail { result.passed.tail ≡ self.entry.passed.tail }
        ensures pieces { pieces_of result ≡ pieces_of self.entry }
        ensures next { next_of result ≡ next_of self.entry }
    {
        let passed = PassedOver {
            titles,
            tail: self.passed.tail,
        };
        LogReader {
            reading: self.reading,
            passed,
            lines: self.lines,
        }
    }

    /// The lines from the heading on, and how many titles are above it. `None` if there is no heading, or a row before it.
    fn at_heading(mut self) -> Option<LogReader<'r, 't>>
        requires { self.passed ≡ record { titles = 0; tail = None } }
        ensures heading { option_map titled_by result ≡ heading_from self.entry.reading (lines_left self.entry) }
        ensures reading { IfSome result (λ r. r.reading ≡ self.entry.reading) }
        ensures tail { IfSome result (λ r. r.passed.tail ≡ None) }
        ensures pieces { IfSome result (λ r. pieces_of r ≡ pieces_of self.entry) }
        ensures next { IfSome result (λ r. next_of self.entry ≤ next_of r) }
    {
        let mut titles: usize = 0;
        let mut here = self;
        while let Some((line, text)) = self.lines.next() {
            match self.reading.opening_line(text) {
                OpeningLine::Passed => {}
                OpeningLine::Title => titles = titles.saturating_add(1),
                OpeningLine::Columns => return Some(here.with_titles(titles)),
                OpeningLine::FirstRow => return None,
            }
            here = self;
        }
        None
    }

    /// All words of a log.
    #[tactic(auto, unfolding(crate::specs::Logs::log_entries, crate::specs::Logs::reading_after, crate::specs::Logs::without_titles, crate::specs::LogsLeft::tail_of, crate::specs::LogsLeft::titles_of))]
    pub fn open(reading: Reading<'r>, pieces: &'t [Vec<u8>]) -> LogReader<'r, 't>
        ensures entries { entries_left result ≡ log_entries reading.entry (joined (texts_in pieces.now)) }
        ensures after { reading_left result ≡ reading_after reading.entry (joined (texts_in pieces.now)) }
        ensures tail { tail_left result ≡ tail_of reading.entry (joined (texts_in pieces.now)) }
        ensures titles { titles_now result ≡ titles_of reading.entry (joined (texts_in pieces.now)) }
        ensures pieces { pieces_of result ≡ pieces.now }
        ensures begun { 0 < length pieces.now → 0 < next_of result }
    {
        let lines = LogReader::of_lines(reading, pieces);
        match lines.at_heading() {
            Some(reader) => reader,
            None => lines,
        }
    }

    /// The words of the pieces that are left, from this point on.
    pub fn go_on(point: LogPoint<'r>, pieces: &'t [Vec<u8>]) -> LogReader<'r, 't>
        ensures entries { entries_left result ≡ entries_at point.entry (texts_in pieces.now) }
        ensures after { reading_left result ≡ reading_at point.entry (texts_in pieces.now) }
        ensures tail { tail_left result ≡ tail_at_point point.entry (texts_in pieces.now) }
        ensures titles { titles_now result ≡ titles_at point.entry }
        ensures pieces { pieces_of result ≡ pieces.now }
        ensures begun { 0 < length pieces.now → 0 < next_of result }
    {
        LogReader {
            reading: point.reading,
            passed: point.passed,
            lines: Lines::after(point.taken, pieces),
        }
    }

    /// How the log goes on after the pieces that were begun, once no word is left of the piece that is read.
    #[tactic(auto, unfolding(crate::specs::LogPieces::left_in))]
    pub fn point(&self) -> LogPoint<'r>
        ensures entries { IsBetween self.now → entries_at result (texts_after self.now) ≡ entries_left self.now }
        ensures after { IsBetween self.now → reading_at result (texts_after self.now) ≡ reading_left self.now }
        ensures tail { IsBetween self.now → tail_at_point result (texts_after self.now) ≡ tail_left self.now }
        ensures titles { titles_at result ≡ titles_now self.now }
    {
        LogPoint {
            reading: self.reading,
            passed: self.passed,
            taken: self.lines.taken(),
        }
    }

    /// The number, from 0, of the first piece that was not begun. The pieces before it can be dropped once no word is left
    /// of the piece that is read.
    pub fn next_piece(&self) -> usize
        ensures next { result ≡ next_of self.now }
        ensures within { result ≤ length (pieces_of self.now) }
    {
        self.lines.next_piece()
    }

    /// How many bytes of the log are left, to show how far the work is. No contract rests on it.
    pub fn bytes_left(&self) -> usize {
        self.lines.bytes_left()
    }

    /// What is passed over.
    pub fn passed_over(&self) -> PassedOver
        ensures titles { result.titles ≡ titles_now self.now }
        ensures tail { lines_left self.now ≡ [] → result.tail ≡ tail_left self.now }
    {
        self.passed
    }

    /// The form of the rows so far. `None` before the first line that states something.
    pub fn shape(&self) -> Option<Shape>
        ensures { result ≡ shape_now self.now }
    {
        self.reading.shape
    }

    /// How the first line of the next log is read, once no word is left of this one.
    pub fn for_next_log(&self) -> Reading<'r>
        ensures { lines_left self.now ≡ [] → result ≡ reading_left self.now }
    {
        self.reading.for_next_log()
    }

    /// Leaves nothing. The line of this number is the first of the tail.
    fn end(&mut self, tail: Option<usize>)
        ensures lines { lines_left self.new ≡ [] }
        ensures reading { self.new.reading ≡ self.old.reading }
        ensures titles { self.new.passed.titles ≡ self.old.passed.titles }
        ensures tail { self.new.passed.tail ≡ or_second self.old.passed.tail tail }
        ensures pieces { pieces_of self.new ≡ pieces_of self.old }
        ensures next { next_of self.new ≡ length (pieces_of self.old) }
        ensures between { IsBetween self.new }
    {
        self.lines.end();
        if self.passed.tail.is_none() {
            self.passed.tail = tail;
        }
    }

    /// Whether a line and those that are left come after the last row.
    #[tactic(auto, unfolding(crate::specs::Logs::is_tail))]
    fn is_tail(&self, text: &[u8]) -> bool
        ensures { (n : ℕ) → result ≡ is_tail_of self.now n text.now }
    {
        let Some(shape) = &self.reading.shape else {
            return false;
        };
        if !self.reading.has_rows {
            return false;
        }
        if shape.is_no_row(text) {
            self.lines.are_no_rows(shape)
        } else {
            shape.is_short(text) && self.lines.are_passed()
        }
    }

    /// Leaves nothing after a line with this fault. The line is the first of a tail, or it is the fault of the log.
    fn stop(
        &mut self,
        line: usize,
        text: &[u8],
        why: LineFault,
    ) -> Option<Result<LogWord<'t>, LogFault>>
        ensures taken { Takes entry_of result (entry_then line (is_tail_of self.old line text.now) (Err why) []) (entries_left self.new) }
        ensures lines { lines_left self.new ≡ [] }
        ensures titles { self.new.passed.titles ≡ self.old.passed.titles }
        ensures after { (later : Reading) → GoesOn result
            (next_log (past_then (is_tail_of self.old line text.now) (Err why) self.old.reading later)) (reading_left self.new) }
        ensures tail { (later : Option ℕ) → TailGoesOn result (or_second self.old.passed.tail
            (tail_then line (is_tail_of self.old line text.now) (Err why) later)) (tail_left self.new) }
        ensures pieces { pieces_of self.new ≡ pieces_of self.old }
        ensures next { next_of self.new ≡ length (pieces_of self.old) }
        ensures between { IsBetween self.new }
    {
        if self.is_tail(text) {
            self.end(Some(line));
            return None;
        }
        self.end(None);
        Some(Err(LogFault { line, why }))
    }

    /// Takes the next word, if the next line is a row that is read quickly. `None` if it is not, and then nothing is
    /// taken.
    #[inline(always)]
    fn next_plain(&mut self) -> Option<LogWord<'t>>
        ensures taken { MatchOption result (entries_left self.new ≡ entries_left self.old)
            (λ w. entries_left self.old ≡ entry_of (Ok w) ∷ entries_left self.new) }
        ensures after { reading_left self.new ≡ reading_left self.old }
        ensures tail { tail_left self.new ≡ tail_left self.old }
        ensures titles { titles_now self.new ≡ titles_now self.old }
        ensures pieces { pieces_of self.new ≡ pieces_of self.old }
        ensures next { next_of self.new ≡ next_of self.old }
    {
        let Some(text) = self.lines.text() else {
            return None;
        };
        let Some((word, end)) = self.reading.first_row(text) else {
            return None;
        };
        let line = self.lines.take_line(text, end);
        Some(LogWord { line, word })
    }

    /// Takes the next word of the piece that is read, whatever rows the log has.
    #[inline(never)]
    fn next_entry(&mut self) -> Option<Result<LogWord<'t>, LogFault>>
        ensures taken { TakesHere entry_of result (entries_left self.old) (entries_left self.new) }
        ensures after { GoesOn result (reading_left self.old) (reading_left self.new) }
        ensures tail { TailGoesOn result (tail_left self.old) (tail_left self.new) }
        ensures titles { titles_now self.new ≡ titles_now self.old }
        ensures pieces { pieces_of self.new ≡ pieces_of self.old }
        ensures more { next_of self.old ≤ next_of self.new }
        ensures between { result ≡ None → IsBetween self.new }
        ensures ended { result ≡ None → next_of self.new ≡ length (pieces_of self.new) → lines_left self.new ≡ [] }
    {
        while let Some((line, text)) = self.lines.next_here() {
            match self.reading.read(text) {
                Ok(None) => {}
                Ok(Some(word)) => return Some(Ok(LogWord { line, word })),
                Err(why) => return self.stop(line, text, why),
            }
        }
        None
    }

    /// Takes the next word of the piece that is read. `None` if no word is left of it. Error: the first faulty line, after
    /// which nothing is left of the log.
    #[inline(always)]
    pub fn next_here(&mut self) -> Option<Result<LogWord<'t>, LogFault>>
        ensures taken { TakesHere entry_of result (entries_left self.old) (entries_left self.new) }
        ensures after { GoesOn result (reading_left self.old) (reading_left self.new) }
        ensures tail { TailGoesOn result (tail_left self.old) (tail_left self.new) }
        ensures titles { titles_now self.new ≡ titles_now self.old }
        ensures pieces { pieces_of self.new ≡ pieces_of self.old }
        ensures more { next_of self.old ≤ next_of self.new }
        ensures between { result ≡ None → IsBetween self.new }
        ensures ended { result ≡ None → next_of self.new ≡ length (pieces_of self.new) → lines_left self.new ≡ [] }
    {
        match self.next_plain() {
            Some(word) => Some(Ok(word)),
            None => self.next_entry(),
        }
    }

    /// Takes the next word. `None` if no word is left. Error: the first faulty line, after which nothing is left.
    pub fn next(&mut self) -> Option<Result<LogWord<'t>, LogFault>>
        ensures taken { Takes entry_of result (entries_left self.old) (entries_left self.new) }
        ensures after { GoesOn result (reading_left self.old) (reading_left self.new) }
        ensures tail { TailGoesOn result (tail_left self.old) (tail_left self.new) }
        ensures titles { titles_now self.new ≡ titles_now self.old }
        ensures pieces { pieces_of self.new ≡ pieces_of self.old }
        ensures ended { result ≡ None → lines_left self.new ≡ [] }
    {
        loop {
            let found = self.next_here();
            if found.is_some() || !self.lines.begin_piece() {
                return found;
            }
        }
    }
}
