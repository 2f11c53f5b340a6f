//! Texts of what changes: `min_us 31250 -> 15625, hold - -> 3`.
ghost use Rattle.std.specs.Prelude.{◌≡◌, ◌++◌, OnOk, string_bytes};
ghost use Rattle.a429_word.specs.Written.{Writes};
ghost use Rattle.a429_documents.specs.Diff.{comma_after, count_change, number_text, value_change, with_change, with_number};

use a429_equipment::same_number;
use std::alloc::AllocError;
use std::fmt::Write;

/// A number of 32 bits, as texts write it; `None` stays `None`.
pub fn wide(number: Option<u32>) -> Option<u64>
    ensures { result ≡ number }
{
    match number {
        None => None,
        Some(number) => Some(u64::from(number)),
    }
}

/// Writes a comma after a text that says something.
fn put_comma(text: &mut String) -> Result<(), AllocError>
    ensures { Writes result text.old text.new (comma_after (string_bytes text.old)) }
{
    if text.is_empty() {
        return Ok(());
    }
    text.push_str(", ")
}

/// Writes a number, `-` for `None`.
fn put_number(text: &mut String, number: Option<u64>) -> Result<(), AllocError>
    ensures { Writes result text.old text.new (number_text number) }
{
    match number {
        None => text.push_str("-"),
        Some(number) => write!(text, "{number}"),
    }
}

/// Writes the name of a value and both values.
fn put_texts(text: &mut String, name: &str, first: &str, second: &str) -> Result<(), AllocError>
    ensures { Writes result text.old text.new (value_change name.now first.now second.now) }
{
    text.push_str(name)?;
    text.push_str(" ")?;
    text.push_str(first)?;
    text.push_str(" -> ")?;
    text.push_str(second)
}

/// Writes the name of a number and both numbers.
fn put_numbers(
    text: &mut String,
    name: &str,
    first: Option<u64>,
    second: Option<u64>,
) -> Result<(), AllocError>
    ensures { Writes result text.old text.new (count_change name.now first second) }
{
    text.push_str(name)?;
    text.push_str(" ")?;
    put_number(text, first)?;
    text.push_str(" -> ")?;
    put_number(text, second)
}

/// Writes a value that differs, unless both tables have the same.
#[tactic(auto, unfolding(crate::specs::Diff::with_change))]
pub fn put_change(
    text: &mut String,
    same: bool,
    name: &str,
    first: &str,
    second: &str,
) -> Result<(), AllocError>
    ensures { OnOk result (string_bytes text.new ≡ with_change same (value_change name.now first.now second.now) (string_bytes text.old)) }
{
    if same {
        return Ok(());
    }
    put_comma(text)?;
    put_texts(text, name, first, second)
}

/// Writes numbers that differ, unless both tables have the same.
#[tactic(auto, unfolding(crate::specs::Diff::with_change))]
pub fn put_counts(
    text: &mut String,
    same: bool,
    name: &str,
    first: Option<u64>,
    second: Option<u64>,
) -> Result<(), AllocError>
    ensures { OnOk result (string_bytes text.new ≡ with_change same (count_change name.now first second) (string_bytes text.old)) }
{
    if same {
        return Ok(());
    }
    put_comma(text)?;
    put_numbers(text, name, first, second)
}

/// Writes a number, if it differs or one side does not have it.
pub fn put_number_change(
    text: &mut String,
    name: &str,
    first: Option<u64>,
    second: Option<u64>,
) -> Result<(), AllocError>
    ensures { OnOk result (string_bytes text.new ≡ with_number name.now first second (string_bytes text.old)) }
{
    put_counts(text, same_number(first, second), name, first, second)
}
