//! Which words of logs a command takes, and how.
ghost use Rattle.std.specs.Prelude.{◌≡◌};
ghost use Rattle.a429_arguments.specs.Texts.{texts_of};
ghost use Rattle.a429_recordings.specs.LogViews.{from_of, is_ignored, moved, same_clock, shifted, since, up_to};

use a429_align::corrected;
use a429_arguments::options::OptionName;
use a429_arguments::requests::Asked;
use a429_arguments::times::{Drift, LogOrigin, Shift};
use a429_logs::{Reading, StatedWord};
use a429_text::renames::renamed;

/// How the times of a clock are moved to another one: without its drift, and then by the shift.
#[derive(Clone, Copy)]
pub struct ClockMove {
    pub drift: Drift,
    pub shift: Shift,
}

impl ClockMove {
    /// Times stay as they are.
    pub fn none() -> ClockMove
        ensures { result ≡ same_clock }
    {
        ClockMove {
            drift: Drift::Fast(0),
            shift: Shift::Later(0),
        }
    }
}

/// Which words of logs are taken, and how.
#[derive(Clone, Copy)]
pub struct LogView<'a> {
    /// Each is FROM=TO: a word with the name FROM is taken as one with the name TO.
    pub channels: &'a [&'a str],
    /// Words of these names are passed over.
    pub ignored: &'a [&'a str],
    /// How times are moved to another clock. A word that is moved to before 0 is passed over.
    pub clock: ClockMove,
    /// The time, in microseconds, from which moved times are counted. Earlier words are passed over.
    pub from: u64,
    /// The last time, in microseconds, as times are counted. Later words are passed over. `None`: there is no last time.
    pub until: Option<u64>,
}

/// The time from which times are counted; 0 if it is that of the first word.
fn from_of(origin: LogOrigin) -> u64
    ensures { result ≡ from_of origin }
{
    match origin {
        LogOrigin::Time(base) => base,
        LogOrigin::First => 0,
    }
}

/// Whether a word has one of these names.
fn is_ignored(ignored: &[&str], name: &[u8]) -> bool
    ensures { result ≡ is_ignored (texts_of ignored.now) name.now }
{
    for text in ignored {
        if text.as_bytes() == name {
            return true;
        }
    }
    false
}

/// A time as it is moved by a shift. `None` if it is moved to before 0, or to one of more than 64 bits.
fn shifted(shift: Shift, time: u64) -> Option<u64>
    ensures { result ≡ shifted shift time }
{
    match shift {
        Shift::Later(by) => {
            if by <= u64::MAX - time {
                Some(time + by)
            } else {
                None
            }
        }
        Shift::Earlier(by) => { if time < by { None } else { Some(time - by) } }
    }
}

/// A time as it is moved to another clock. `None` if it is moved to before 0, or to one of more than 64 bits.
fn moved(clock: ClockMove, time: u64) -> Option<u64>
    ensures { result ≡ moved clock time }
{
    match corrected(clock.drift, time) {
        Some(time) => shifted(clock.shift, time),
        None => None,
    }
}

/// A time as it is counted from this one on. `None` if it is earlier.
fn since(from: u64, time: u64) -> Option<u64>
    ensures { result ≡ since from time }
{
    if time < from { None } else { Some(time - from) }
}

/// A time, unless it is after the last one.
fn up_to(last: Option<u64>, time: u64) -> Option<u64>
    ensures { result ≡ up_to last time }
{
    match last {
        Some(last) => { if last < time { None } else { Some(time) } }
        None => Some(time),
    }
}

impl<'a> LogView<'a> {
    ghost use Rattle.std.specs.Prelude.{◌≡◌, option_map};
    ghost use Rattle.a429_logs.specs.LogRows.{stated_by};
    ghost use Rattle.a429_arguments.specs.Requests.{asked_of};
    ghost use Rattle.a429_recordings.specs.LogViews.{taken, time_in, view_after, view_of, whole_view, window_view};

    /// All words of the logs of a request.
    pub fn whole(asked: &'a Asked) -> LogView<'a>
        ensures { view_of result ≡ whole_view (asked_of asked.now).given }
    {
        LogView {
            channels: asked.texts(OptionName::Channel),
            ignored: asked.texts(OptionName::Ignore),
            clock: ClockMove::none(),
            from: from_of(asked.origin()),
            until: None,
        }
    }

    /// The words up to the last time of a request, with times moved so.
    pub fn window(asked: &'a Asked, clock: ClockMove) -> LogView<'a>
        ensures { view_of result ≡ window_view (asked_of asked.now).given clock }
    {
        LogView {
            channels: asked.texts(OptionName::Channel),
            ignored: asked.texts(OptionName::Ignore),
            clock,
            from: from_of(asked.origin()),
            until: asked.long_number(OptionName::Until),
        }
    }

    /// This view of a log that is read after others: times are counted from the one that is given, otherwise from that of
    /// the first word of those.
    pub fn after(self, reading: Reading<'_>) -> LogView<'a>
        ensures { view_of result ≡ view_after reading.entry (view_of self.entry) }
    {
        LogView {
            from: u64::max(self.from, reading.clock.base.unwrap_or(0)),
            ..self
        }
    }

    /// This view with times moved so.
    pub fn on_clock(self, clock: ClockMove) -> LogView<'a>
        ensures { view_of result ≡ record (view_of self.entry) { clock = clock } }
    {
        LogView { clock, ..self }
    }

    /// The time that a word is taken at. `None` if the word is passed over.
    fn time_in(&self, time: u64) -> Option<u64>
        ensures { result ≡ time_in (view_of self.now) time }
    {
        let at = moved(self.clock, time)?;
        let counted = since(self.from, at)?;
        up_to(self.until, counted)
    }

    /// A word as it is taken. `None` if it is passed over.
    #[inline(always)]
    pub fn taken(&self, word: StatedWord<'a>) -> Option<StatedWord<'a>>
        ensures { option_map stated_by result ≡ taken (view_of self.now) (stated_by word.entry) }
    {
        if is_ignored(self.ignored, word.name) {
            return None;
        }
        let time = self.time_in(word.time)?;
        Some(StatedWord {
            time,
            name: renamed(self.channels, word.name),
            raw: word.raw,
        })
    }
}
