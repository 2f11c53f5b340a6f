//! Hints about logs as a whole: what is passed over, logs that are too long, and words that come too closely.

use crate::hint::HintText;
use a429_console::hints::warnings::PassedLines;
use a429_logs::TimeUnit;

/// Says that a log, or the time of `--until`, takes too many frames of a group.
pub fn tell_too_long(until: Option<u64>, hint: &HintText) {
    match until {
        Some(until) => hint.line_one(
            "from the first word until {} us a group would send more than 1000000 frames (the limit): give an earlier --until",
            until,
        ),
        None => hint.say_line(
            "the log is too long: from the first word until one frame after the last a group would send more than 1000000 frames (the limit); cut the log, or give --until",
        ),
    }
}

/// Says that words come more closely than a bus can carry them, and with which unit their times would be longer.
pub fn tell_close_words(receiver: &str, unit: Option<TimeUnit>, hint: &HintText) {
    let remedy = match unit.unwrap_or(TimeUnit::Microseconds) {
        TimeUnit::Microseconds => "; if the times are milliseconds, give --time ms",
        TimeUnit::Milliseconds => "; if the times are seconds, give --time s",
        TimeUnit::Nanoseconds => "; if the times are microseconds, give --time us",
        TimeUnit::Seconds | TimeUnit::Ticks(_) => "",
    };
    hint.line_two(
        "more than 100 words in a row come to receiver {} less than 360 us apart, which is too close even for 100 kbit/s{}",
        receiver,
        remedy,
    );
}

/// Says which lines of a log are passed over, since they state no word.
pub fn tell_passed(lines: PassedLines, hint: &HintText) {
    if lines.titles > 0 {
        hint.line_one(
            "lines above the heading that are passed over: {}",
            lines.titles,
        );
    }
    if let Some(tail) = lines.tail {
        hint.line_one(
            "line {} and those after it are passed over: they are no rows",
            tail,
        );
    }
}
