//! Faults in single values: rates, counts, names, labels, SDIs, intervals and holds.

ghost use Rattle.std.specs.Prelude.{◌≡◌, not, Some, codes};
ghost use Rattle.std.specs.List.{list_any};
ghost use Rattle.toml.specs.Data.{get};
ghost use Rattle.toml.specs.View.{view};
ghost use Rattle.a429_equipment.specs.NameForm.{is_name_byte, is_name};
ghost use Rattle.a429_filter.specs.FilterTexts.{is_filter};
ghost use Rattle.a429_table.specs.Tree.{text_of};
ghost use Rattle.a429_table.specs.Faults.{is_sdi, is_within, is_rate, is_interval, is_hold, is_named, has_wrong_rate, has_too_many, has_bad_name, has_bad_label, has_bad_sdi, has_bad_interval, has_bad_hold, is_empty_group};

use crate::fault::TablePlace;
use crate::tree::{get_integer, integer_at, rows_at, text_at, text_of};
use crate::walk::Stop;
use a429_equipment::{GROUPS, HOLD, LONGEST_INTERVAL, OUTPUTS, RECEIVERS, SOURCES, TableVersion};
use a429_filter::{FILTERS, Filter};
use a429_word::Label;
use toml::Value;

/// Whether a number lies from `low` to `high`.
pub fn is_within(low: u32, high: u32, number: i64) -> bool
    ensures { result ≡ is_within low high number }
{
    i64::from(low) <= number && number <= i64::from(high)
}

fn is_rate(rate: i64) -> bool
    ensures { result ≡ is_rate rate }
{
    is_within(100000, 100000, rate) || is_within(12000, 14500, rate)
}

/// Whether the bit rate of the root of version 1, or of a group of version 2, is neither 100000 nor 12000 to 14500.
#[tactic(auto, unfolding(crate::specs::Faults::has_wrong_rate))]
pub fn has_wrong_rate(version: TableVersion, stop: &Stop) -> bool
    ensures { result ≡ has_wrong_rate version stop.now.place (view stop.now.value.now) }
{
    match (version, stop.place) {
        (TableVersion::One, TablePlace::Root) | (TableVersion::Two, TablePlace::Group(_)) => {
            !is_rate(integer_at(stop.value, "rate"))
        }
        _ => false,
    }
}

/// Whether an array is longer than allowed.
#[tactic(auto, unfolding(crate::specs::Faults::has_too_many))]
pub fn has_too_many(stop: &Stop) -> bool
    ensures { result ≡ has_too_many stop.now.place (view stop.now.value.now) }
{
    match stop.place {
        TablePlace::Root => {
            rows_at(stop.value, "receiver").len() > RECEIVERS
                || rows_at(stop.value, "source").len() > SOURCES
                || rows_at(stop.value, "group").len() > GROUPS
        }
        TablePlace::Receiver(_) => rows_at(stop.value, "filters").len() > FILTERS,
        TablePlace::Group(_) => rows_at(stop.value, "output").len() > OUTPUTS,
        _ => false,
    }
}

fn is_name_byte(b: u8) -> bool
    ensures { result ≡ is_name_byte b }
{
    matches!(b, b'a'..=b'z' | b'0'..=b'9' | b'-' | b'_')
}

#[tactic(auto, unfolding(a429_equipment::specs::NameForm::is_name))]
fn is_name(text: &str) -> bool
    ensures { result ≡ is_name text.now }
{
    let bytes = text.as_bytes();
    1 <= bytes.len() && bytes.len() <= 16 && bytes.iter().all(|b| is_name_byte(*b))
}

/// Whether tables of this place have names.
pub fn is_named(place: TablePlace) -> bool
    ensures { result ≡ is_named place }
{
    matches!(
        place,
        TablePlace::Receiver(_) | TablePlace::Source(_) | TablePlace::Group(_)
    )
}

/// Whether the name is not of its form.
#[tactic(auto, unfolding(crate::specs::Faults::has_bad_name))]
pub fn has_bad_name(stop: &Stop) -> bool
    ensures { result ≡ has_bad_name stop.now.place (view stop.now.value.now) }
{
    is_named(stop.place) && !is_name(text_at(stop.value, "name"))
}

/// The text is a filter.
#[tactic(auto, unfolding(a429_filter::specs::FilterTexts::filter_read))]
fn is_filter(text: &str) -> bool
    ensures { result ≡ is_filter text.now }
{
    Filter::parse(text).is_ok()
}

fn has_bad_filter(filters: &[Value]) -> bool
    ensures { result ≡ list_any (λ f. not (is_filter (text_of (Some (view f))))) filters.now }
{
    filters.iter().any(|filter| !is_filter(text_of(filter)))
}

/// Whether a label or a filter is not of its form.
#[tactic(auto, unfolding(crate::specs::Faults::has_bad_label), using(crate::proofs::Trees::list_any_map))]
pub fn has_bad_label(stop: &Stop) -> bool
    ensures { result ≡ has_bad_label stop.now.place (view stop.now.value.now) }
{
    match stop.place {
        TablePlace::Receiver(_) => has_bad_filter(rows_at(stop.value, "filters")),
        TablePlace::Source(_) => Label::of_digits(text_at(
            stop.value, "label",
        ).as_bytes()).is_none(),
        _ => false,
    }
}

#[tactic(auto, unfolding(crate::specs::Faults::has_bad_sdi))]
fn table_has_bad_sdi(table: &Value) -> bool
    ensures { result ≡ not (is_sdi (get (codes "sdi") (view table.now))) }
{
    match table.get("sdi") {
        Some(Value::Integer(number)) => !is_within(0, 3, *number),
        Some(Value::String(text)) => text.as_str() != "any",
        _ => true,
    }
}

/// Whether the SDI is neither 0 to 3 nor `any`.
#[tactic(auto, unfolding(crate::specs::Faults::has_bad_sdi))]
pub fn has_bad_sdi(stop: &Stop) -> bool
    ensures { result ≡ has_bad_sdi stop.now.place (view stop.now.value.now) }
{
    match stop.place {
        TablePlace::Source(_) => table_has_bad_sdi(stop.value),
        _ => false,
    }
}

fn is_interval(least: i64, most: i64) -> bool
    ensures { result ≡ is_interval least most }
{
    is_within(1, LONGEST_INTERVAL, least) && is_within(1, LONGEST_INTERVAL, most) && least <= most
}

/// Whether the interval of an output is wrong: a bound is not 1 to 30,000,000 µs, or its minimum is above its maximum.
#[tactic(auto, unfolding(crate::specs::Faults::has_bad_interval))]
pub fn has_bad_interval(stop: &Stop) -> bool
    ensures { result ≡ has_bad_interval stop.now.place (view stop.now.value.now) }
{
    match stop.place {
        TablePlace::Output(_, _) => {
            !is_interval(
                integer_at(stop.value, "min_us"),
                integer_at(stop.value, "max_us"),
            )
        }
        _ => false,
    }
}

fn is_hold(hold: Option<i64>) -> bool
    ensures { result ≡ is_hold hold }
{
    hold.is_none_or(|hold| is_within(1, HOLD, hold))
}

/// Whether there is a hold, and it is out of range.
#[tactic(auto, unfolding(crate::specs::Faults::has_bad_hold))]
pub fn has_bad_hold(stop: &Stop) -> bool
    ensures { result ≡ has_bad_hold stop.now.place (view stop.now.value.now) }
{
    match stop.place {
        TablePlace::Output(_, _) => !is_hold(get_integer(stop.value, "hold")),
        _ => false,
    }
}

/// Whether a group has no output.
#[tactic(auto, unfolding(crate::specs::Faults::is_empty_group))]
pub fn is_empty_group(stop: &Stop) -> bool
    ensures { result ≡ is_empty_group stop.now.place (view stop.now.value.now) }
{
    match stop.place {
        TablePlace::Group(_) => rows_at(stop.value, "output").is_empty(),
        _ => false,
    }
}
