//! The lines of a plan text.

ghost use Rattle.std.specs.Prelude.{◌≡◌, ◌<◌, ◌^◌, option_map, Option, position, true};
ghost use Rattle.std.specs.Option.{option_copied};
ghost use Rattle.a429_cert.specs.Spelling.{says_more};
ghost use Rattle.a429_cert.specs.Reading.{after, word, word_after, number_after, is_break, number, limit_of, limit, is_end, number_line, plan_line, rate_line, rate_part, hold_part, group_line, output_line, bound_line};
ghost use Rattle.a429_cert.specs.Views.{heading, listing, bounding};

use a429_word::decimal_number;

/// What a group's first line says.
#[derive(Clone, Copy)]
pub struct GroupLine<'a> {
    pub name: &'a [u8],
    /// In bit/s; only a line of version 2 says it.
    pub rate: Option<u64>,
    pub frame: u64,
    pub buses: u64,
}

/// What the line of an output says.
#[derive(Clone, Copy)]
pub struct OutputLine<'a> {
    pub source: &'a [u8],
    pub period: u64,
    pub bus: u64,
    pub offset: u64,
    /// The hold: one accepted word is sent at most this number of times, and the inner `None` is no limit. Only a line
    /// of version 2 says it; the outer `None` is a line of version 1.
    pub hold: Option<Option<u64>>,
}

/// What a group's last line says.
#[derive(Clone, Copy)]
pub struct BoundLine {
    pub demand: u64,
    pub full_buses: u64,
    pub frame: u64,
}

/// Whether a text of this version says each group's bit rate and each output's hold.
pub fn says_more(version: u32) -> bool
    ensures { result ≡ says_more version }
{
    version == 2
}

/// What follows a text at the front.
#[tactic(auto, unfolding(crate::specs::Reading::after))]
fn after<'a>(bytes: &'a [u8], text: &str) -> Option<&'a [u8]>
    ensures { option_copied result ≡ after text.now bytes.now }
{
    let text = text.as_bytes();
    if bytes.starts_with(text) {
        Some(&bytes[text.len()..])
    } else {
        None
    }
}

/// Whether a byte ends a word.
fn is_break(byte: u8) -> bool
    ensures { result ≡ is_break byte }
{
    byte == b' ' || byte == b'\n'
}

/// The place of the first byte that ends a word.
fn first_break(bytes: &[u8]) -> Option<usize>
    ensures { result ≡ position is_break bytes.now }
{
    bytes.iter().position(|byte| is_break(*byte))
}

/// The word at the front, of one byte or more, and the bytes after it.
#[tactic(auto, using(crate::proofs::Words::unwrap_position), unfolding(crate::specs::Reading::word))]
fn word(bytes: &[u8]) -> Option<(&[u8], &[u8])>
    ensures { option_map (λ x. (x.0.now, x.1.now)) result ≡ word bytes.now }
{
    let end = first_break(bytes).unwrap_or(bytes.len());
    if end == 0 {
        None
    } else {
        Some(bytes.split_at(end))
    }
}

/// The number at the front, and the bytes after it.
#[tactic(auto, unfolding(crate::specs::Reading::number))]
fn number(bytes: &[u8]) -> Option<(u64, &[u8])>
    ensures { option_map (λ x. (x.0, x.1.now)) result ≡ number bytes.now }
{
    let (word, rest) = word(bytes)?;
    Some((decimal_number(word)?, rest))
}

/// The word after a text, and the bytes that follow the word.
#[tactic(auto, unfolding(crate::specs::Reading::word_after))]
fn word_after<'a>(bytes: &'a [u8], text: &str) -> Option<(&'a [u8], &'a [u8])>
    ensures { option_map (λ x. (x.0.now, x.1.now)) result ≡ word_after text.now bytes.now }
{
    word(after(bytes, text)?)
}

/// The number after a text, and the bytes that follow the number.
#[tactic(auto, unfolding(crate::specs::Reading::number_after))]
fn number_after<'a>(bytes: &'a [u8], text: &str) -> Option<(u64, &'a [u8])>
    ensures { option_map (λ x. (x.0, x.1.now)) result ≡ number_after text.now bytes.now }
{
    number(after(bytes, text)?)
}

/// The limit that a word spells: a number, or that there is no limit.
#[tactic(auto, unfolding(crate::specs::Reading::limit_of))]
fn limit_of(word: &[u8]) -> Option<Option<u64>>
    ensures { result ≡ limit_of word.now }
{
    if word == "none".as_bytes() {
        return Some(None);
    }
    Some(Some(decimal_number(word)?))
}

/// The limit at the front, and the bytes after it.
#[tactic(auto, unfolding(crate::specs::Reading::limit))]
fn limit(bytes: &[u8]) -> Option<(Option<u64>, &[u8])>
    ensures { option_map (λ x. (x.0, x.1.now)) result ≡ limit bytes.now }
{
    let (word, rest) = word(bytes)?;
    Some((limit_of(word)?, rest))
}

/// Whether nothing but the line's end is left.
#[tactic(auto, unfolding(crate::specs::Reading::is_end))]
fn is_end(bytes: &[u8]) -> bool
    ensures { result ≡ is_end bytes.now }
{
    bytes == "\n".as_bytes()
}

/// The number that a line says after a text; `None` if the line is not of this form.
#[tactic(auto, unfolding(crate::specs::Reading::number_line))]
fn number_line(line: &[u8], text: &str) -> Option<u64>
    ensures { result ≡ number_line text.now line.now }
{
    let (number, rest) = number_after(line, text)?;
    if is_end(rest) { Some(number) } else { None }
}

/// The version that the first line of a text states; `None` if the line is not of its form.
pub fn plan_line(line: &[u8]) -> Option<u64>
    ensures { result ≡ plan_line line.now }
{
    number_line(line, "plan ")
}

/// The bit rate in bit/s that the second line of a text of version 1 states; `None` if the line is not of its form.
pub fn rate_line(line: &[u8]) -> Option<u64>
    ensures { result ≡ rate_line line.now }
{
    number_line(line, "rate ")
}

/// The bit rate at the front, which only a line of version 2 says, and the bytes after it.
#[tactic(auto, unfolding(crate::specs::Reading::rate_part, crate::specs::Reading::said_rate))]
fn rate_part(version: u32, bytes: &[u8]) -> Option<(Option<u64>, &[u8])>
    ensures { option_map (λ x. (x.0, x.1.now)) result ≡ rate_part version bytes.now }
{
    if !says_more(version) {
        return Some((None, bytes));
    }
    let (rate, rest) = number_after(bytes, " rate ")?;
    Some((Some(rate), rest))
}

/// The hold at the front, which only a line of version 2 says, and the bytes after it.
#[tactic(auto, unfolding(crate::specs::Reading::hold_part, crate::specs::Reading::said_hold))]
fn hold_part(version: u32, bytes: &[u8]) -> Option<(Option<Option<u64>>, &[u8])>
    ensures { option_map (λ x. (x.0, x.1.now)) result ≡ hold_part version bytes.now }
{
    if !says_more(version) {
        return Some((None, bytes));
    }
    let (hold, rest) = limit(after(bytes, " hold ")?)?;
    Some((Some(hold), rest))
}

/// What a group's first line says; `None` if it is not of the form of this version.
#[tactic(auto, unfolding(crate::specs::Reading::group_line))]
pub fn group_line(version: u32, line: &[u8]) -> Option<GroupLine<'_>>
    ensures { option_map heading result ≡ group_line version line.now }
{
    let (name, rest) = word_after(line, "group ")?;
    let (rate, rest) = rate_part(version, rest)?;
    let (frame, rest) = number_after(rest, " frame ")?;
    let (buses, rest) = number_after(rest, " buses ")?;
    if is_end(rest) {
        Some(GroupLine {
            name,
            rate,
            frame,
            buses,
        })
    } else {
        None
    }
}

/// What the line of an output says; `None` if it is not of the form of this version.
#[tactic(auto, unfolding(crate::specs::Reading::output_line))]
pub fn output_line(version: u32, line: &[u8]) -> Option<OutputLine<'_>>
    ensures { option_map listing result ≡ output_line version line.now }
{
    let (source, rest) = word_after(line, "output ")?;
    let (period, rest) = number_after(rest, " period ")?;
    let (bus, rest) = number_after(rest, " bus ")?;
    let (offset, rest) = number_after(rest, " offset ")?;
    let (hold, rest) = hold_part(version, rest)?;
    if is_end(rest) {
        Some(OutputLine {
            source,
            period,
            bus,
            offset,
            hold,
        })
    } else {
        None
    }
}

/// What a group's last line says; `None` if it is not of its form.
#[tactic(auto, unfolding(crate::specs::Reading::bound_line))]
pub fn bound_line(line: &[u8]) -> Option<BoundLine>
    ensures { option_map bounding result ≡ bound_line line.now }
{
    let (demand, rest) = number_after(line, "bound ")?;
    let (full_buses, rest) = number_after(rest, " > ")?;
    let (frame, rest) = number_after(rest, " * ")?;
    if is_end(rest) {
        Some(BoundLine {
            demand,
            full_buses,
            frame,
        })
    } else {
        None
    }
}
