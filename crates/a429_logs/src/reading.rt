//! The lines of a log.
ghost use Rattle.std.specs.Prelude.{◌≡◌, [], IfSome, None, Ok, Some, false, true};
ghost use Rattle.a429_logs.specs.LogColumns.{plain_places};
ghost use Rattle.a429_logs.specs.LogFields.{separator_in};
ghost use Rattle.a429_logs.specs.Calendars.{shown_timed, timed_by};
ghost use Rattle.a429_logs.specs.declared.calendars.Calendar.TheVariants.{Open, Units};
ghost use Rattle.a429_logs.specs.QuickRows.{IsPlain, TakesRow, in_units};
ghost use Rattle.a429_logs.specs.declared.words.BitOrder.TheVariants.{AsWritten};
ghost use Rattle.a429_logs.specs.Logs.{has_time, is_no_row, is_passed, is_passed_over, is_plain_row, is_short, names_columns, next_log, opening_line, read_first, read_line, read_row, renames_of, shown_line, unit_for, with_calendar, word_of_row};

use crate::calendars::{Calendar, TimedWord};
use crate::clocks::Clock;
use crate::columns::{Heading, HeadingFault, Places, Width, WordPlaces};
use crate::fields::{Separator, trimmed};
use crate::quick::{is_plain, plain_start, quick_word};
use crate::rows::{RowFault, StatedWord, field_at, row_of};
use crate::times::{TimeUnit, can_be_time};
use crate::words::BitOrder;
use crate::written::DateOrder;

/// What separates the fields of a log, and which columns it has.
#[derive(Clone, Copy)]
pub struct Shape {
    pub separator: Separator,
    /// The unit of times.
    pub unit: TimeUnit,
    pub places: Places,
}

impl Shape {
    /// A log without a heading: each line is a time, a name and a word.
    fn plain(separator: Separator, unit: TimeUnit) -> Shape
        ensures { result ≡ record { separator = separator; unit = unit; places = plain_places } }
    {
        Shape {
            separator,
            unit,
            places: Places {
                width: Width { all: 3, bare: 3 },
                unit: None,
                time: 0,
                name: 1,
                word: WordPlaces::Whole(2),
            },
        }
    }
}

impl Shape {
    /// Whether the field of a line in the column of times can be a time.
    fn has_time(&self, line: &[u8]) -> bool
        ensures { result ≡ has_time self.now line.now }
    {
        can_be_time(self.unit, field_at(self.separator, line, self.places.time))
    }

    /// Whether a line has fewer fields than the heading.
    pub fn is_short(&self, line: &[u8]) -> bool
        ensures { result ≡ is_short self.now line.now }
    {
        Width::of(self.separator, line).bare < self.places.width.bare
    }

    /// Whether a line is no row, since it is passed over or has no time.
    pub fn is_no_row(&self, line: &[u8]) -> bool
        ensures { result ≡ is_no_row self.now line.now }
    {
        is_passed_over(line) || !self.has_time(line)
    }
}

/// How the next line of a log is read.
#[derive(Clone, Copy)]
pub struct Reading<'a> {
    /// The unit of times, if it is given. Otherwise it is that of the heading, or the microsecond.
    pub unit: Option<TimeUnit>,
    /// The order in which the bits of whole words are written.
    pub order: BitOrder,
    /// Texts FROM=TO. A field FROM of a heading counts as TO.
    pub renames: &'a [&'a str],
    /// Whether the day or the month is first in dates, if it is given. Otherwise rows show it.
    pub dates: Option<DateOrder>,
    /// The form of rows. `None` before the first line that is not passed over.
    pub shape: Option<Shape>,
    /// Whether a row of the log was read.
    pub has_rows: bool,
    /// The form of times, and how they go on over midnight and the end of a year.
    pub calendar: Calendar,
    pub clock: Clock,
}

/// What is wrong with a line.
#[derive(Clone, Copy)]
pub enum LineFault {
    Heading(HeadingFault),
    Row(RowFault),
}

/// What a line is above the first row.
#[derive(Clone, Copy)]
pub enum OpeningLine {
    /// It is passed over.
    Passed,
    /// A heading.
    Columns,
    /// A row of a log without a heading.
    FirstRow,
    /// Neither: a title, if a heading follows.
    Title,
}

/// Whether a text without blanks at its ends is empty, or begins with `#`.
fn is_passed(text: &[u8]) -> bool
    ensures { result ≡ is_passed text.now }
{
    match text {
        [] => true,
        [first, ..] => *first == b'#',
    }
}

/// Whether a line is passed over: it is empty but for blanks, or begins with `#` after blanks.
#[tactic(auto, unfolding(crate::specs::Logs::is_passed_over))]
pub fn is_passed_over(line: &[u8]) -> bool
    ensures { result ≡ is_passed_over line.now }
{
    // the first byte decides, unless it is a blank
    match line {
        [first, ..] if !first.is_ascii_whitespace() => *first == b'#',
        _ => is_passed(trimmed(line)),
    }
}

impl<'a> Reading<'a> {
    ghost use Rattle.a429_logs.specs.declared.reading.Shape.{Shape};

    /// How the first line of a log is read, if words are as they are written.
    pub fn new(unit: Option<TimeUnit>, clock: Clock) -> Reading<'a>
        ensures reading { result ≡ record {
          unit = unit;
          order = AsWritten;
          renames = result.renames;
          dates = None;
          shape = None;
          has_rows = false;
          calendar = Open;
          clock = clock;
        } }
        ensures renames { renames_of result ≡ [] }
    {
        Reading {
            unit,
            order: BitOrder::AsWritten,
            renames: &[],
            dates: None,
            shape: None,
            has_rows: false,
            calendar: Calendar::Open,
            clock,
        }
    }

    /// This reading, if the bits of whole words are written in this order.
    pub fn with_order(self, order: BitOrder) -> Reading<'a>
        ensures { result ≡ record self.entry { order = order } }
    {
        Reading { order, ..self }
    }

    /// This reading, if the fields of headings are renamed by these texts FROM=TO: a field FROM counts as TO.
    pub fn with_renames(self, renames: &'a [&'a str]) -> Reading<'a>
        ensures { result ≡ record self.entry { renames = renames.entry } }
    {
        Reading { renames, ..self }
    }

    /// This reading, if the day or the month is first in dates. Without an order rows show it.
    pub fn with_dates(self, order: Option<DateOrder>) -> Reading<'a>
        ensures { result ≡ record self.entry { dates = order } }
    {
        Reading {
            dates: order,
            ..self
        }
    }

    /// The unit of times, if a heading says this of it.
    fn unit_for(&self, heading: Option<TimeUnit>) -> TimeUnit
        ensures { result ≡ unit_for self.now.unit heading }
    {
        match self.unit {
            Some(unit) => unit,
            None => heading.unwrap_or(TimeUnit::Microseconds),
        }
    }

    /// How the first line of the next log is read, after this one: times go on, and the form is found again.
    pub fn for_next_log(self) -> Reading<'a>
        ensures { result ≡ next_log self.entry }
    {
        Reading {
            shape: None,
            has_rows: false,
            ..self
        }
    }

    /// The word of a row in a form, with its time in microseconds, and the calendar after it.
    fn word_of_row<'b>(&self, line: &'b [u8], shape: &Shape) -> Result<TimedWord<'b>, RowFault>
        ensures { shown_timed result ≡ word_of_row self.now line.now shape.now }
    {
        match row_of(shape.unit, self.order, shape.separator, &shape.places, line) {
            Ok(row) => self.calendar.timed(self.dates, row),
            Err(why) => Err(why),
        }
    }

    /// What the first row states, which has this form.
    fn row<'b>(&mut self, line: &'b [u8], shape: Shape) -> Result<Option<StatedWord<'b>>, LineFault>
        ensures { shown_line self.new result ≡ read_row self.old line.now shape }
    {
        let timed = match self.word_of_row(line, &shape) {
            Ok(timed) => timed,
            Err(why) => return Err(LineFault::Row(why)),
        };
        match self.clock.read(timed.word) {
            Ok(word) => {
                self.shape = Some(shape);
                self.has_rows = true;
                self.calendar = timed.calendar;
                Ok(Some(word))
            }
            Err(why) => Err(LineFault::Row(why)),
        }
    }

    /// What the row of a word states, by its time on the clock.
    fn timed<'b>(&mut self, timed: TimedWord<'b>) -> Result<Option<StatedWord<'b>>, LineFault>
        ensures { (shape : Shape) → self.old.shape ≡ Some shape
            → shown_line self.new result ≡ with_calendar self.old shape (Ok (timed_by timed.entry)) }
    {
        match self.clock.read(timed.word) {
            Ok(word) => {
                self.has_rows = true;
                self.calendar = timed.calendar;
                Ok(Some(word))
            }
            Err(why) => Err(LineFault::Row(why)),
        }
    }

    /// What a row states that is read quickly. `None` if it is not.
    fn quick<'b>(&self, line: &'b [u8], shape: &Shape) -> Option<TimedWord<'b>>
        ensures { IfSome result (λ timed. word_of_row self.now line.now shape.now ≡ Ok (timed_by timed)) }
    {
        if !self.calendar.is_of_units() {
            return None;
        }
        let word = quick_word(shape.unit, self.order, shape.separator, &shape.places, line)?;
        Some(TimedWord {
            word,
            calendar: Calendar::Units,
        })
    }

    /// A word with its time in the unit of the log, by its time on the clock. `None` if its time is faulty; then all is as
    /// before.
    #[inline(always)]
    fn counted<'b>(&mut self, word: StatedWord<'b>) -> Option<StatedWord<'b>>
        ensures word { IfSome result (λ w. (shape : Shape) → self.old.shape ≡ Some shape → self.old.calendar ≡ Units
            → shown_line self.new (Ok (Some w)) ≡ with_calendar self.old shape (Ok (in_units word.entry))) }
        ensures kept { result ≡ None → self.new ≡ self.old }
    {
        match self.clock.read(word) {
            Ok(word) => {
                self.has_rows = true;
                Some(word)
            }
            Err(_) => None,
        }
    }

    /// Whether rows are those that most logs have.
    #[inline(always)]
    fn is_plain(&self) -> bool
        ensures { result ≡ true → IsPlain self.now }
    {
        match &self.shape {
            Some(shape) => {
                self.calendar.is_of_units() && is_plain(shape.unit, shape.separator, &shape.places)
            }
            None => false,
        }
    }

    /// Takes the first line of a text, if it is a row that is read quickly: its word, and the place of the line feed after
    /// it. `None` if it is not; then all is as before.
    #[inline(always)]
    pub(crate) fn first_row<'b>(&mut self, text: &'b [u8]) -> Option<(StatedWord<'b>, usize)>
        ensures taken { IfSome result (λ found. TakesRow self.old self.new text.now found.1 found.0) }
        ensures kept { result ≡ None → self.new ≡ self.old }
    {
        if !self.is_plain() {
            return None;
        }
        let (word, end) = plain_start(self.order, text)?;
        let word = self.counted(word)?;
        Some((word, end))
    }

    /// The word of the first line that is not passed over; none if it is a heading.
    #[cold]
    #[inline(never)]
    fn first<'b>(&mut self, line: &'b [u8]) -> Result<Option<StatedWord<'b>>, LineFault>
        ensures { shown_line self.new result ≡ read_first self.old line.now (separator_in line.now) }
    {
        let separator = Separator::in_line(line);
        let heading = Heading {
            separator,
            line,
            renames: self.renames,
        };
        let unit = self.unit_for(None);
        if !heading.is_heading(unit) {
            return self.row(line, Shape::plain(separator, unit));
        }
        match heading.places() {
            Ok(places) => {
                let unit = self.unit_for(places.unit);
                self.shape = Some(Shape {
                    separator,
                    unit,
                    places,
                });
                Ok(None)
            }
            Err(why) => Err(LineFault::Heading(why)),
        }
    }

    /// Whether a line is a heading without a fault.
    fn names_columns(&self, line: &[u8]) -> bool
        ensures { result ≡ names_columns self.now line.now }
    {
        let heading = Heading {
            separator: Separator::in_line(line),
            line,
            renames: self.renames,
        };
        heading.is_heading(self.unit_for(None)) && heading.places().is_ok()
    }

    /// Whether a line is a row of a log without a heading.
    fn is_plain_row(&self, line: &[u8]) -> bool
        ensures { result ≡ is_plain_row self.now line.now }
    {
        let shape = Shape::plain(Separator::in_line(line), self.unit_for(None));
        row_of(shape.unit, self.order, shape.separator, &shape.places, line).is_ok()
    }

    /// What a line is above the first row.
    #[tactic(auto, unfolding(crate::specs::Logs::opening_line))]
    pub fn opening_line(&self, line: &[u8]) -> OpeningLine
        ensures { result ≡ opening_line self.now line.now }
    {
        if is_passed_over(line) {
            OpeningLine::Passed
        } else if self.names_columns(line) {
            OpeningLine::Columns
        } else if self.is_plain_row(line) {
            OpeningLine::FirstRow
        } else {
            OpeningLine::Title
        }
    }

    /// What a line states: a word, or `None` if it is passed over or is a heading. Error: what is wrong with the line.
    #[tactic(auto, unfolding(crate::specs::Logs::read_line))]
    pub fn read<'b>(&mut self, line: &'b [u8]) -> Result<Option<StatedWord<'b>>, LineFault>
        ensures { shown_line self.new result ≡ read_line self.old line.now }
    {
        if is_passed_over(line) {
            return Ok(None);
        }
        // by reference, since a copy of the form costs more than the rest of the line
        let Some(shape) = &self.shape else {
            return self.first(line);
        };
        if let Some(timed) = self.quick(line, shape) {
            return self.timed(timed);
        }
        match self.word_of_row(line, shape) {
            Ok(timed) => self.timed(timed),
            Err(why) => Err(LineFault::Row(why)),
        }
    }
}
