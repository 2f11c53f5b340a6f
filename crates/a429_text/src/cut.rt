//! Texts cut at a byte, and into lines, and texts after a byte order mark.
ghost use Rattle.std.specs.Prelude.{◌≡◌, ◌<◌, ◌-◌, length, IfSome, option_map};
ghost use Rattle.a429_text.specs.CutText.{after_lines, cut, first_line, without_byte_order_mark};

/// The texts before and after the first byte of this value. `None` if there is no such byte.
#[tactic(auto, unfolding(crate::specs::CutText::cut))]
pub fn cut_at(text: &[u8], byte: u8) -> Option<(&[u8], &[u8])>
    ensures cut { option_map (λ p. (p.0.now, p.1.now)) result ≡ cut byte text.now }
    ensures shorter { IfSome result (λ p. length p.1.now < length text.now) }
{
    let at = text.iter().position(|b| *b == byte)?;
    Some((&text[..at], &text[at + 1..]))
}

/// The first line of a text, without its line feed.
pub fn first_line(text: &[u8]) -> &[u8]
    ensures { result.now ≡ first_line text.now }
{
    match cut_at(text, b'\n') {
        Some((line, _)) => line,
        None => text,
    }
}

/// The bytes from a line on; lines are counted from 1. They are empty if the text has no such line.
pub fn lines_from(text: &[u8], number: usize) -> &[u8]
    ensures { result.now ≡ after_lines (number - 1) text.now }
{
    let (mut rest, mut before) = (text, number.saturating_sub(1));
    while before > 0 {
        rest = match cut_at(rest, b'\n') {
            Some((_, next)) => next,
            None => &[],
        };
        before -= 1;
    }
    rest
}

/// A text without the byte order mark at its beginning (UTF-8), if it has one.
pub fn without_byte_order_mark(text: &[u8]) -> &[u8]
    ensures { result.now ≡ without_byte_order_mark text.now }
{
    match text {
        [0xEF, 0xBB, 0xBF, rest @ ..] => rest,
        _ => text,
    }
}
