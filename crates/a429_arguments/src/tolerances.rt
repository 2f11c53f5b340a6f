//! The texts of `--tolerance`, which say how far recorded times may be wrong: `US` is for all groups, and `GROUP=US` for the
//! group of this name.
//!
//! The last `=` counts: `a=b=500` is for the group `a=b`.
ghost use Rattle.std.specs.Prelude.{◌≡◌, false, option_map};
ghost use Rattle.a429_arguments.specs.Texts.{texts_of};
ghost use Rattle.a429_arguments.specs.Tolerances.{FitTogether, HasToleranceForm, NamesGroup, TolerancesAreFor, first_number, is_general_again, is_tolerance, microseconds_of, number_for, tolerance_for, tolerance_group};
ghost use Rattle.a429_text.specs.Renames.{halves};

use crate::values::short_number_up_to;

/// The greatest tolerance, in microseconds: that of the longest interval of an output (profile).
const MOST_TOLERANCE: u32 = 30_000_000;

/// GROUP and US of a text GROUP=US. `None` for a text US.
fn halves(text: &str) -> Option<(&str, &str)>
    ensures { option_map (λ p. (p.0.now, p.1.now)) result ≡ halves text.now }
{
    text.rsplit_once('=')
}

/// The number of US in microseconds. `None` if it is no whole number from 0 to 30000000.
fn microseconds_in(text: &str) -> Option<u32>
    ensures { result ≡ microseconds_of text.now }
{
    short_number_up_to(text, MOST_TOLERANCE)
}

/// GROUP of a text GROUP=US, which is for the group of this name. `None` for a text US, which is for all groups.
pub fn tolerance_group<'a>(text: &'a str) -> Option<&'a str>
    ensures { option_map (λ group. group.now) result ≡ tolerance_group text.now }
{
    let (group, _) = halves(text)?;
    Some(group)
}

/// The number that a text gives the group of this name alone, or all groups, in microseconds.
fn number_for(text: &str, group: Option<&[u8]>) -> Option<u32>
    ensures { result ≡ number_for (option_map (λ name. name.now) group.entry) text.now }
{
    match (halves(text), group) {
        (Some((own, number)), Some(group)) if own.as_bytes() == group => microseconds_in(number),
        (None, None) => microseconds_in(text),
        _ => None,
    }
}

/// The number of the first text that gives one.
fn first_number(texts: &[&str], group: Option<&[u8]>) -> Option<u32>
    ensures { result ≡ first_number (option_map (λ name. name.now) group.entry) (texts_of texts.now) }
{
    for text in texts {
        if let Some(number) = number_for(*text, group) {
            return Some(number);
        }
    }
    None
}

/// How far recorded times of the group of this name may be wrong by these texts, in microseconds: the number of its own,
/// and if there is none that of all groups. `None` if no text gives it a number.
pub fn tolerance_for(texts: &[&str], group: &[u8]) -> Option<u32>
    ensures { result ≡ tolerance_for (texts_of texts.now) group.now }
{
    first_number(texts, Some(group)).or(first_number(texts, None))
}

/// Whether a text is US, or GROUP=US with a byte in GROUP.
pub fn is_tolerance(text: &str) -> bool
    ensures { result ≡ is_tolerance text.now }
{
    match halves(text) {
        Some((group, number)) => !group.is_empty() && microseconds_in(number).is_some(),
        None => microseconds_in(text).is_some(),
    }
}

/// Whether two of the texts are for all groups.
pub fn is_general_twice(texts: &[&str]) -> bool
    ensures { result ≡ is_general_again false (texts_of texts.now) }
{
    let mut seen = false;
    for text in texts {
        if tolerance_group(*text).is_none() {
            if seen {
                return true;
            }
            seen = true;
        }
    }
    false
}

/// What some texts say: the definitions, by examples.
#[tactic(auto, unfolding(std::specs::Path::rsplit_once, crate::specs::CommandLine::number_up_to))]
pub fn tolerances_are_as_written()
    ensures numbers { TolerancesAreFor }
    ensures groups { NamesGroup }
    ensures form { HasToleranceForm }
    ensures together { FitTogether }
{}
