//! The lines of a log, and the fields of a line.
ghost use Rattle.std.specs.Prelude.{◌≡◌, ◌<◌, ◌∷◌, [], Some, None, IfSome, MatchOption, filter_map, length, option_map, position};
ghost use Rattle.std.specs.List.{list_any};
ghost use Rattle.std.specs.Prelude.{false};
ghost use Rattle.a429_logs.specs.LogFields.{Takes, ends_part, field_in, fields_left, fields_of, first_outside, has_separator, has_quotes, is_separator, is_quote, is_quoted, line_fields_left, separator_in, parts_in, parts_left, parts_of, quoted_field_in, quoted_left, quoted_parts, trimmed, turned, unquoted};

use memchr::memchr;

/// What ends a line of a log, a field of a line, or a part of a time or a date.
#[derive(Clone, Copy, PartialEq, Eq)]
pub enum Separator {
    LineFeed,
    /// A space, a tab, a carriage return or a form feed.
    Blank,
    Comma,
    Semicolon,
    /// In times of day and of the year.
    Colon,
    /// In dates.
    Dash,
    /// In dates.
    Slash,
    /// In dates.
    Point,
}

impl Separator {
    /// Whether a byte is this separator.
    fn is(self, byte: u8) -> bool
        ensures { result ≡ is_separator self byte }
    {
        match self {
            Separator::LineFeed => byte == b'\n',
            Separator::Blank => byte.is_ascii_whitespace(),
            Separator::Comma => byte == b',',
            Separator::Semicolon => byte == b';',
            Separator::Colon => byte == b':',
            Separator::Dash => byte == b'-',
            Separator::Slash => byte == b'/',
            Separator::Point => byte == b'.',
        }
    }

    /// The place of the first such separator.
    #[inline(always)]
    fn first(self, text: &[u8]) -> Option<usize>
        ensures { result ≡ position (is_separator self) text.now }
    {
        match self {
            Separator::LineFeed => memchr(b'\n', text),
            _ => text.iter().position(|byte| self.is(*byte)),
        }
    }

    /// Whether a text has such a separator.
    fn is_in(self, text: &[u8]) -> bool
        ensures { result ≡ list_any (is_separator self) text.now }
    {
        text.iter().any(|byte| self.is(*byte))
    }

    /// Whether a byte is this separator, outside quotes.
    fn ends_part(self, inside: bool, byte: u8) -> bool
        ensures { result ≡ ends_part self inside byte }
    {
        !inside && self.is(byte)
    }

    /// The place of the first such separator outside quotes.
    fn first_outside(self, text: &[u8]) -> Option<usize>
        ensures place { result ≡ first_outside self false text.now }
        ensures within { IfSome result (λ place. place < length text.now) }
    {
        let mut inside = false;
        for place in 0..text.len() {
            if self.ends_part(inside, text[place]) {
                return Some(place);
            }
            inside = turned(inside, text[place]);
        }
        None
    }

    /// Whether a line has such a separator outside quotes.
    fn is_in_line(self, line: &[u8]) -> bool
        ensures { result ≡ has_separator self line.now }
    {
        if has_quotes(line) {
            self.first_outside(line).is_some()
        } else {
            self.is_in(line)
        }
    }

    /// What separates the fields of a log with this first line: semicolons if it has one, otherwise commas if it has
    /// one, otherwise blanks.
    #[tactic(auto, unfolding(crate::specs::LogFields::separator_in))]
    pub fn in_line(line: &[u8]) -> Separator
        ensures { result ≡ separator_in line.now }
    {
        if Separator::Semicolon.is_in_line(line) {
            Separator::Semicolon
        } else if Separator::Comma.is_in_line(line) {
            Separator::Comma
        } else {
            Separator::Blank
        }
    }
}

/// The place of the first quote.
#[inline(always)]
fn first_quote(line: &[u8]) -> Option<usize>
    ensures { result ≡ position is_quote line.now }
{
    memchr(b'"', line)
}

/// Whether a line has a quote.
#[inline(always)]
pub fn has_quotes(line: &[u8]) -> bool
    ensures { result ≡ has_quotes line.now }
{
    first_quote(line).is_some()
}

/// Whether what follows a byte is inside quotes.
fn turned(inside: bool, byte: u8) -> bool
    ensures { result ≡ turned inside byte }
{
    if byte == b'"' { !inside } else { inside }
}

/// Whether a text has quotes at both ends.
fn is_quoted(text: &[u8]) -> bool
    ensures { result ≡ is_quoted text.now }
{
    text.len() >= 2 && text[0] == b'"' && text[text.len() - 1] == b'"'
}

/// What is between the quotes at both ends of a text, if they are there.
#[tactic(auto, unfolding(crate::specs::LogFields::unquoted))]
fn unquoted(text: &[u8]) -> &[u8]
    ensures { result.now ≡ unquoted text.now }
{
    if is_quoted(text) {
        &text[1..text.len() - 1]
    } else {
        text
    }
}

/// A text without the blanks at both ends.
#[tactic(auto, unfolding(crate::specs::LogFields::trimmed))]
pub fn trimmed(text: &[u8]) -> &[u8]
    ensures { result.now ≡ trimmed text.now }
{
    text.trim_ascii()
}

/// Takes the first part of what is left of a text. `None` if nothing is left.
#[inline(always)]
pub fn next_part<'a>(separator: Separator, left: &mut Option<&'a [u8]>) -> Option<&'a [u8]>
    ensures taken { Takes (λ part. part.now) result (parts_in separator left.old) (parts_in separator left.new) }
    ensures ended { result ≡ None → (left.old ≡ None) × (left.new ≡ None) }
{
    let text = (*left)?;
    match separator.first(text) {
        Some(end) => {
            *left = Some(&text[end + 1..]);
            Some(&text[..end])
        }
        None => {
            *left = None;
            Some(text)
        }
    }
}

/// The parts of a text before, between and after separators, as long as some are left.
#[derive(Clone, Copy)]
pub struct Parts<'a> {
    separator: Separator,
    left: Option<&'a [u8]>,
}

impl<'a> Parts<'a> {
    /// All parts of a text.
    pub fn of(separator: Separator, text: &'a [u8]) -> Parts<'a>
        ensures separator { result.separator ≡ separator }
        ensures parts { parts_left result ≡ parts_of separator text.now }
    {
        Parts {
            separator,
            left: Some(text),
        }
    }

    /// Takes the next part. `None` if none is left.
    #[inline(always)]
    pub fn next(&mut self) -> Option<&'a [u8]>
        ensures separator { self.new.separator ≡ self.old.separator }
        ensures taken { Takes (λ part. part.now) result (parts_left self.old) (parts_left self.new) }
    {
        next_part(self.separator, &mut self.left)
    }
}

/// The field of a part between two separators: between blanks nothing is no field.
fn field_in(separator: Separator, part: &[u8]) -> Option<&[u8]>
    ensures { option_map (λ field. field.now) result ≡ field_in separator part.now }
{
    match separator {
        Separator::Blank => { if part.is_empty() { None } else { Some(part) } }
        _ => Some(trimmed(part)),
    }
}

/// The field of a part of a line with quotes.
fn quoted_field_in(separator: Separator, part: &[u8]) -> Option<&[u8]>
    ensures { option_map (λ field. field.now) result ≡ quoted_field_in separator part.now }
{
    match field_in(separator, part) {
        Some(field) => Some(unquoted(field)),
        None => None,
    }
}

/// The parts of a text before, between and after separators outside quotes, as long as some are left.
#[derive(Clone, Copy)]
pub struct QuotedParts<'a> {
    separator: Separator,
    left: Option<&'a [u8]>,
}

impl<'a> QuotedParts<'a> {
    /// Takes the next part. `None` if none is left.
    fn next(&mut self) -> Option<&'a [u8]>
        ensures separator { self.new.separator ≡ self.old.separator }
        ensures taken { Takes (λ part. part.now) result (quoted_left self.old) (quoted_left self.new) }
    {
        let text = self.left?;
        match self.separator.first_outside(text) {
            Some(end) => {
                self.left = Some(&text[end + 1..]);
                Some(&text[..end])
            }
            None => {
                self.left = None;
                Some(text)
            }
        }
    }

    /// Takes the next field. `None` if none is left.
    fn next_field(&mut self) -> Option<&'a [u8]>
        ensures separator { self.new.separator ≡ self.old.separator }
        ensures taken { Takes (λ field. field.now) result (filter_map (quoted_field_in self.old.separator) (quoted_left self.old))
            (filter_map (quoted_field_in self.old.separator) (quoted_left self.new)) }
    {
        while let Some(part) = self.next() {
            if let Some(field) = quoted_field_in(self.separator, part) {
                return Some(field);
            }
        }
        None
    }
}

impl<'a> Parts<'a> {
    /// Takes the next field. `None` if none is left.
    fn next_field(&mut self) -> Option<&'a [u8]>
        ensures separator { self.new.separator ≡ self.old.separator }
        ensures taken { Takes (λ field. field.now) result (filter_map (field_in self.old.separator) (parts_left self.old))
            (filter_map (field_in self.old.separator) (parts_left self.new)) }
    {
        while let Some(part) = self.next() {
            if let Some(field) = field_in(self.separator, part) {
                return Some(field);
            }
        }
        None
    }
}

/// The parts of a line, as long as some are left.
#[derive(Clone, Copy)]
pub enum LineParts<'a> {
    /// Of a line without quotes.
    Plain(Parts<'a>),
    /// Of a line with quotes.
    Quoted(QuotedParts<'a>),
}

/// The fields of a line, as long as some are left.
#[derive(Clone, Copy)]
pub struct Fields<'a> {
    parts: LineParts<'a>,
}

impl<'a> Fields<'a> {
    /// All fields of a line.
    #[tactic(auto, unfolding(crate::specs::LogFields::fields_of))]
    pub fn of(separator: Separator, line: &'a [u8]) -> Fields<'a>
        ensures { fields_left result ≡ fields_of separator line.now }
    {
        let parts = if has_quotes(line) {
            LineParts::Quoted(QuotedParts {
                separator,
                left: Some(line),
            })
        } else {
            LineParts::Plain(Parts::of(separator, line))
        };
        Fields { parts }
    }

    /// Takes the next field. `None` if none is left.
    pub fn next(&mut self) -> Option<&'a [u8]>
        ensures taken { Takes (λ field. field.now) result (fields_left self.old) (fields_left self.new) }
    {
        match &mut self.parts {
            LineParts::Plain(parts) => parts.next_field(),
            LineParts::Quoted(parts) => parts.next_field(),
        }
    }
}
