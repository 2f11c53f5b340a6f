//! Hints about lines of logs, and about logs that are too long or whose words come too closely.

use crate::files::other_file;
use crate::hint::HintText;
use crate::lists::{has_name, nearest_of, say_unknown, text_of};
use crate::log_parts::{first_name, names_of, part_form};
use crate::rows::short_text;
use crate::scripts::{NOT_UTF8, is_script_word, tell_no_word};
use a429_console::refusals::evidence::{LineEvidence, LogEvidence, LogRefusal};
use a429_logs::{
    Column, Fields, HeadingFault, LineFault, Places, RowFault, Separator, TimeUnit, Width,
    WordPlaces,
};
use a429_text::renames::renamed;

/// The maximum number of bytes of a name that a hint shows as part of an argument.
const ARGUMENT: usize = 48;

/// A line of a log, and how it was read.
#[derive(Clone, Copy)]
struct ReadLine<'a> {
    line: &'a LineEvidence,
    text: &'a str,
    separator: Separator,
    unit: TimeUnit,
    places: Places,
    /// As which names channels are taken.
    channels: &'a [&'a str],
}

impl<'a> ReadLine<'a> {
    /// The field in a place.
    fn field(&self, place: usize) -> &'a str {
        field_of(self.text, self.separator, place)
    }

    /// The channel of its word.
    fn channel(&self) -> &'a str {
        self.field(self.places.name)
    }

    /// The name as which its channel is taken.
    fn name(&self) -> &'a str {
        text_of(renamed(self.channels, self.channel().as_bytes()))
    }
}

/// The field of a text with this separator in a place.
fn field_of(text: &str, separator: Separator, place: usize) -> &str {
    let mut fields = Fields::of(separator, text.as_bytes());
    for passed in 0..place {
        if fields.next().is_none() {
            return "";
        }
    }
    text_of(fields.next().unwrap_or(&[]))
}

/// The places of the fields in a log without a heading.
const PLAIN: Places = Places {
    width: Width { all: 3, bare: 3 },
    unit: None,
    time: 0,
    name: 1,
    word: WordPlaces::Whole(2),
};

/// Says what is wrong with a line of a log whose channels are taken as names.
pub fn tell_log_line<'a>(
    line: &'a LineEvidence,
    log: &LogEvidence,
    channels: &'a [&'a str],
    hint: &HintText,
) {
    if let Some(kind) = other_file(&line.bytes) {
        return hint.say_line(kind);
    }
    let Ok(text) = str::from_utf8(&line.bytes) else {
        return hint.say_line(NOT_UTF8);
    };
    let (separator, unit, places) = match log.shape {
        Some(shape) => (shape.separator, shape.unit, shape.places),
        None => (Separator::in_line(text.as_bytes()), log.unit, PLAIN),
    };
    let read = ReadLine {
        line,
        text,
        separator,
        unit,
        places,
        channels,
    };
    match other_line(&read, log.shape.is_none()) {
        Some(kind) => hint.line_one("{}; a log has lines TIME RECEIVER HEX", kind),
        None => tell_why(&read, log.why, hint),
    }
}

/// What kind of line it is by its first field, if it is none of a log. The time may be missing in the first line that states
/// something.
fn other_line(read: &ReadLine<'_>, is_first: bool) -> Option<&'static str> {
    let first = read.field(0);
    if is_script_word(first) {
        Some("this is a line of a script")
    } else if is_first && has_name(&read.line.receivers, first) && !is_number(first) {
        Some("the time before the receiver is missing")
    } else {
        None
    }
}

/// Says why a line of a log is refused.
fn tell_why(read: &ReadLine<'_>, why: LogRefusal, hint: &HintText) {
    match why {
        LogRefusal::Line(LineFault::Heading(fault)) => tell_heading(fault, hint),
        LogRefusal::Line(LineFault::Row(fault)) => tell_row(read, fault, hint),
        LogRefusal::Receiver => tell_receiver(read, hint),
        LogRefusal::Group => tell_group(read, hint),
        LogRefusal::Neither => {
            tell_receiver(read, hint);
            tell_group(read, hint);
        }
        LogRefusal::Both => hint.line_one(
            "{?} is a receiver and a group: name the bus as GROUP.BUS, or give what was sent as a log of its own",
            read.name(),
        ),
        LogRefusal::Name => hint.say_line(NOT_UTF8),
        LogRefusal::Late => hint.say_line(
            "the time is 100000000000000 us or more; to count times from the first word, give --from first",
        ),
    }
}

/// Says that no receiver has the name of a word.
fn tell_receiver(read: &ReadLine<'_>, hint: &HintText) {
    tell_unknown(
        "receiver",
        read.name(),
        None,
        read,
        &read.line.receivers,
        hint,
    );
}

/// Says that no group has the name of a word, or that the group has no bus of its number.
fn tell_group(read: &ReadLine<'_>, hint: &HintText) {
    let (name, groups) = (read.name(), &read.line.groups);
    if has_name(&read.line.receivers, name) && !has_name(groups, name) {
        return hint.line_one(
            "{?} is a receiver; in a log of what was sent a name is a group, and the log of what came in is given first",
            name,
        );
    }
    match name.split_once('.') {
        Some((group, bus)) if has_name(groups, group) => hint.line_two(
            "group {?} has no bus {?}; `plan` prints how many it has, and they are numbered from 0",
            group,
            bus,
        ),
        Some((group, bus)) => tell_unknown("group", group, Some(bus), read, groups, hint),
        None => tell_unknown("group", name, None, read, groups, hint),
    }
}

/// Says that no receiver or group has the name of a word, and how to take the channel of the line as one. A group may have
/// the number of a bus after it.
fn tell_unknown(
    kind: &str,
    name: &str,
    bus: Option<&str>,
    read: &ReadLine<'_>,
    names: &[String],
    hint: &HintText,
) {
    hint.begin(": ");
    say_unknown(kind, name, names, hint);
    let channel = read.channel();
    if channel != read.name() {
        hint.say_one("; --channel takes {?} as this name", channel);
    } else if !names.is_empty() && !channel.is_empty() {
        hint.say("; to take it as one, give --channel ");
        say_channel(channel, name, bus, names, hint);
    }
    hint.end("");
}

/// Says the value of `--channel` that takes a channel as the nearest of these names, or the only one, and the option that
/// passes over its words. If no shell takes the text of the channel, says the form of the value.
fn say_channel(channel: &str, name: &str, bus: Option<&str>, names: &[String], hint: &HintText) {
    let Some(quote) = quotes_of(channel) else {
        return hint.say("FROM=NAME");
    };
    hint.say_two("{}{}=", quote, channel);
    say_likely(name, names, hint);
    if let Some(bus) = bus {
        hint.say_one(".{}", bus);
    }
    hint.say(quote);
    hint.say_two("; to pass over its words, --ignore {}{}", quote, channel);
    hint.say(quote);
}

/// Says the name that a channel may have: the nearest of these, or the only one.
fn say_likely(name: &str, names: &[String], hint: &HintText) {
    let shown = short_text(name);
    if let Some(near) = nearest_of(hint.alloc, shown.as_str(), names).name() {
        return hint.say(near);
    }
    match names.first() {
        Some(only) if names.len() == 1 => hint.say(only.as_str()),
        _ => hint.say("NAME"),
    }
}

/// What a shell needs around a text: nothing, or double quotes. `None` if these are not enough, or the text is long.
fn quotes_of(text: &str) -> Option<&'static str> {
    if text.len() > ARGUMENT || text.starts_with('-') {
        return None;
    }
    let mut is_quoted = false;
    for c in text.chars() {
        if c.is_control() || "\"$`\\!".contains(c) {
            return None;
        }
        if !c.is_ascii_alphanumeric() && !"_-./:+@".contains(c) {
            is_quoted = true;
        }
    }
    Some(if is_quoted { "\"" } else { "" })
}

/// Says what is wrong with a heading.
fn tell_heading(fault: HeadingFault, hint: &HintText) {
    match fault {
        HeadingFault::Lacks(column) => hint.line_two(
            "the line begins with no digit, so it is read as a heading; it has no column {}; if one of its columns is that, give --map HEADING={}",
            names_of(column),
            first_name(column),
        ),
        HeadingFault::Repeats(column) => {
            hint.line_one("the heading has more than one column {}", names_of(column));
        }
    }
}

/// Says what is wrong with a row.
fn tell_row(read: &ReadLine<'_>, fault: RowFault, hint: &HintText) {
    match fault {
        RowFault::Fields => tell_count(read, hint),
        RowFault::Time => tell_time(read, hint),
        RowFault::Falls => tell_fall(read, hint),
        RowFault::Early => hint.say_line("the word comes before the time of --from"),
        RowFault::DateOrder => hint.line_one(
            "{?} may begin with the day or with the month, and no row before shows which: give --dates dmy or --dates mdy",
            read.field(read.places.time),
        ),
        _ => tell_word(read, fault, hint),
    }
}

/// Says what is wrong with a word, or with a field of it and which column that is in.
fn tell_word(read: &ReadLine<'_>, fault: RowFault, hint: &HintText) {
    let parts = match read.places.word {
        WordPlaces::Whole(place) => return tell_no_word(read.field(place), hint),
        WordPlaces::Parts(parts) => parts,
    };
    let (name, place) = match fault {
        RowFault::Label => ("label", parts.label.place),
        RowFault::Sdi => ("SDI", parts.sdi),
        RowFault::Ssm => ("SSM", parts.ssm),
        RowFault::Parity => ("parity", parts.parity.unwrap_or(0)),
        _ => ("data", parts.value.place),
    };
    hint.begin(": ");
    hint.say_two("the {} {?}", name, read.field(place));
    hint.say_one(" in column {}", place.saturating_add(1));
    hint.end_one(" is not {}", part_form(&parts, fault));
}

/// Says how many fields a line has, and how many it has to have.
fn tell_count(read: &ReadLine<'_>, hint: &HintText) {
    let separators = match read.separator {
        Separator::Semicolon => "semicolons",
        Separator::Comma => "commas",
        _ => "blanks",
    };
    hint.line_three(
        "the number of fields is {}, not {}; fields are separated by {}",
        Width::of(read.separator, read.text.as_bytes()).all,
        read.places.width.all,
        separators,
    );
}

/// Whether a text is one or more decimal digits.
fn is_number(text: &str) -> bool {
    !text.is_empty() && text.bytes().all(|byte| byte.is_ascii_digit())
}

/// Whether a text is digits with one point or comma between them.
fn is_decimal(text: &str) -> bool {
    match text.split_once(['.', ',']) {
        Some((whole, fraction)) => is_number(whole) && is_number(fraction),
        None => false,
    }
}

/// Says what is wrong with the form of a time.
fn tell_time(read: &ReadLine<'_>, hint: &HintText) {
    let time = read.field(read.places.time);
    let is_counted = matches!(read.unit, TimeUnit::Ticks(_));
    if !is_counted && is_number(time) && time.len() > 12 {
        return hint.line_two(
            "{?} has {} digits; a time has at most 18 for microseconds",
            time,
            time.len(),
        );
    }
    let fault = if is_counted {
        "is not a count of --tick: 1 to 16 hexadecimal digits, which may follow 0x, for less than 10^18 us"
    } else if is_number(time) {
        "has another form than the first time"
    } else if time.starts_with('+') || time.starts_with('-') {
        "has a sign; write the time without it"
    } else if time.contains('/') {
        "is not YYYY/MM/DD HH:MM:SS or DD/MM/YYYY HH:MM:SS, or has another form than the first time"
    } else if time.contains(':') {
        "is not HH:MM:SS, DDD:HH:MM:SS or YYYY-MM-DDTHH:MM:SS, or has another form than the first time"
    } else if time.starts_with("0x") || time.starts_with("0X") {
        "is hexadecimal; if times are counts, give --tick NS, the nanoseconds of each"
    } else if read.unit != TimeUnit::Microseconds {
        "is not a time; a time is a decimal number, such as 12.5"
    } else if is_decimal(time) {
        "has a decimal point; a time is in whole microseconds; for seconds give --time s, for milliseconds --time ms"
    } else {
        "is not a time; a time is in whole microseconds, 1 to 18 digits"
    };
    hint.line_two("{?} {}", time, fault);
}

/// Says that a time is less than the time before it.
fn tell_fall(read: &ReadLine<'_>, hint: &HintText) {
    let earlier = field_of(text_of(&read.line.before), read.separator, read.places.time);
    hint.begin(": ");
    hint.say_one("the time {..} is less than ", read.field(read.places.time));
    if let [b'0'..=b'9', ..] = earlier.as_bytes() {
        hint.say_one("the time before it, {..}", earlier);
    } else {
        hint.say("that of the last word in the logs before");
    }
    hint.end("; times must not decrease");
}
