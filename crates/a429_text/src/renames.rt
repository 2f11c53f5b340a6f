//! Texts FROM=TO, each of which gives a name another name, such as `3=adc`.
//!
//! The last `=` counts: by `a=b=c` the other name of `a=b` is `c`.
ghost use Rattle.std.specs.Prelude.{◌≡◌, ◌<◌, IfSome, is_some, length, map, option_map};
ghost use Rattle.std.specs.List.{list_any};
ghost use Rattle.std.specs.Path.{rfind_below};
ghost use Rattle.a429_text.specs.Renames.{HasForm, RenamesNames, RepeatsFrom, halves, has_one_from_twice, is_from_again, is_rename, rename_mark, renamed, taken_as};

/// The place of the last `=` of a text.
fn mark_in(text: &[u8]) -> Option<usize>
    ensures last { result ≡ rfind_below rename_mark text.now (length text.now) }
    ensures within { IfSome result (λ place. place < length text.now) }
{
    let mut end = text.len();
    while end > 0 {
        end -= 1;
        if text[end] == b'=' {
            return Some(end);
        }
    }
    None
}

/// FROM and TO of a text, which is cut at its last `=`. `None` if it has no `=`.
#[tactic(auto, unfolding(std::specs::Path::rsplit_once))]
pub fn halves(text: &[u8]) -> Option<(&[u8], &[u8])>
    ensures { option_map (λ p. (p.0.now, p.1.now)) result ≡ halves text.now }
{
    let mark = mark_in(text)?;
    Some((&text[..mark], &text[mark + 1..]))
}

/// Whether a text has the form FROM=TO: it has a `=`, and a byte before its last one and after it.
pub fn is_rename(text: &str) -> bool
    ensures { result ≡ is_rename text.now }
{
    match halves(text.as_bytes()) {
        Some((from, to)) => !from.is_empty() && !to.is_empty(),
        None => false,
    }
}

/// TO of a text, if this name is its FROM.
fn taken_as<'a>(text: &'a str, name: &[u8]) -> Option<&'a [u8]>
    ensures { option_map (λ to. to.now) result ≡ taken_as name.now text.now }
{
    match halves(text.as_bytes()) {
        Some((from, to)) if from == name => Some(to),
        _ => None,
    }
}

/// The other name of a name: TO of the first text whose FROM is the name, byte by byte. If there is none, the name
/// itself. A text without a `=` gives no name another one.
pub fn renamed<'a>(renames: &[&'a str], name: &'a [u8]) -> &'a [u8]
    ensures { result.now ≡ renamed (map (λ text. text.now) renames.now) name.now }
{
    for text in renames {
        if let Some(to) = taken_as(*text, name) {
            return to;
        }
    }
    name
}

/// Whether one of the texts has this FROM.
fn has_from(renames: &[&str], name: &[u8]) -> bool
    ensures { result ≡ list_any (λ text. is_some (taken_as name.now text)) (map (λ text. text.now) renames.now) }
{
    for text in renames {
        if taken_as(*text, name).is_some() {
            return true;
        }
    }
    false
}

/// Whether one of the texts has the FROM of this text.
fn is_from_again(renames: &[&str], text: &str) -> bool
    ensures { result ≡ is_from_again (map (λ text. text.now) renames.now) (halves text.now) }
{
    match halves(text.as_bytes()) {
        Some((from, _)) => has_from(renames, from),
        None => false,
    }
}

/// Whether two of the texts have the same FROM.
pub fn has_one_from_twice(renames: &[&str]) -> bool
    ensures { result ≡ has_one_from_twice (map (λ text. text.now) renames.now) }
{
    for place in 0..renames.len() {
        if is_from_again(&renames[place + 1..], renames[place]) {
            return true;
        }
    }
    false
}

/// What some texts say: the definitions, by examples.
pub fn renames_are_as_written()
    ensures names { RenamesNames }
    ensures form { HasForm }
    ensures twice { RepeatsFrom }
{}
