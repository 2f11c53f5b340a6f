//! Logs: which of their words are taken, and how they are read.
ghost use Rattle.std.specs.Prelude.{◌≡◌};
ghost use Rattle.a429_arguments.specs.Requests.{asked_of};
ghost use Rattle.a429_recordings.specs.SimulationReplies.{IsReadingFor, clock_from};

pub mod keeping;
pub mod views;

use a429_arguments::options::OptionName;
use a429_arguments::requests::Asked;
use a429_arguments::times::LogOrigin;
use a429_logs::{Clock, Reading};

/// The clock that reads times as they are, or counts them from that of the first word.
fn clock_from(from: LogOrigin) -> Clock
    ensures { result ≡ clock_from from }
{
    match from {
        LogOrigin::Time(_) => Clock::from_time(0),
        LogOrigin::First => Clock::from_first(),
    }
}

/// How the first line of a log is read, as the request asks for it.
pub fn reading_for<'a>(asked: &'a Asked<'_>) -> Reading<'a>
    ensures { IsReadingFor (asked_of asked.now).given result }
{
    Reading::new(asked.unit(), clock_from(asked.origin()))
        .with_order(asked.order())
        .with_dates(asked.dates())
        .with_renames(asked.texts(OptionName::Map))
}
