//! Hints about a further table that describes another station.

use crate::hint::HintText;
use crate::lists::{Named, has_name};
use a429_console::files::reading::printable_name;
use a429_equipment::{Equipment, GroupRow, ReceiverRow, SourceRow, receiver_name};
use a429_filter::FilterSet;
use a429_word::Sdi;

/// Says what differs first between a further table and the first table, with both values.
pub fn tell_difference(table: &str, running: &Equipment, other: &Equipment, hint: &HintText) {
    hint.begin(": its station differs from that of ");
    match printable_name(hint.alloc, table) {
        Ok(shown) => hint.say(shown.as_str()),
        Err(_) => hint.give_up(),
    }
    hint.say(": ");
    if tell_receivers(running.receivers(), other.receivers(), hint)
        || tell_sources(running, other, hint)
        || tell_groups(running.groups(), other.groups(), hint)
    {
        return;
    }
    hint.end("its rows differ");
}

impl Named for ReceiverRow {
    fn name(&self) -> &str {
        self.name.as_str()
    }
}

impl Named for SourceRow {
    fn name(&self) -> &str {
        self.name.as_str()
    }
}

impl Named for GroupRow {
    fn name(&self) -> &str {
        self.name.as_str()
    }
}

/// Says which row one table has and the other one does not, or which row is at another place, and answers whether there is
/// one.
fn tell_rows<N: Named>(kind: &str, running: &[N], other: &[N], hint: &HintText) -> bool {
    tell_absent(
        kind,
        running,
        other,
        "in the first table, and not in the new table",
        hint,
    ) || tell_absent(
        kind,
        other,
        running,
        "in the new table, and not in the first table",
        hint,
    ) || tell_order(kind, running, other, hint)
}

/// Says which of these rows is the first that the others do not have, and answers whether there is one.
fn tell_absent<N: Named>(
    kind: &str,
    rows: &[N],
    others: &[N],
    place: &str,
    hint: &HintText,
) -> bool {
    let Some(row) = rows.iter().find(|row| !has_name(others, row.name())) else {
        return false;
    };
    hint.say_two("{} {}", kind, row.name());
    hint.end_one(" is {}", place);
    true
}

/// Says which row is the first at another place, and answers whether there is one. Both tables have the same names.
fn tell_order<N: Named>(kind: &str, running: &[N], other: &[N], hint: &HintText) -> bool {
    for (place, (own, found)) in running.iter().zip(other).enumerate() {
        let (own, found) = (own.name(), found.name());
        if own != found {
            hint.say_two("{} {}", kind, place);
            hint.say_two(
                " is {?} in the new table, and {?} in the first table: ",
                found,
                own,
            );
            hint.end("keep their order");
            return true;
        }
    }
    false
}

/// Says which receiver differs first, in its name or its filters, and answers whether one does.
fn tell_receivers(running: &[ReceiverRow], other: &[ReceiverRow], hint: &HintText) -> bool {
    let mut pairs = running.iter().zip(other);
    tell_rows("receiver", running, other, hint)
        || pairs.any(|(own, found)| tell_filters(own, found, hint))
}

/// Says both lists of filters of a receiver if they differ, and answers whether they do.
fn tell_filters(own: &ReceiverRow, found: &ReceiverRow, hint: &HintText) -> bool {
    if own.filters.list() == found.filters.list() {
        return false;
    }
    hint.say_one("receiver {} has ", own.name.as_str());
    say_filters(&found.filters, hint);
    hint.say(" in the new table, and ");
    say_filters(&own.filters, hint);
    hint.end(" in the first table");
    true
}

/// Says the filters of a receiver as a table writes them.
fn say_filters(filters: &FilterSet, hint: &HintText) {
    let Some(filters) = filters.list() else {
        return hint.say("no key `filters`");
    };
    hint.say("[");
    for (place, filter) in filters.iter().enumerate() {
        if place > 0 {
            hint.say(", ");
        }
        let (label, mask) = (filter.label, filter.mask);
        write!(hint, "{label}/{mask:03o}");
    }
    hint.say("]");
}

/// Says which source differs first, and answers whether one does.
fn tell_sources(running: &Equipment, other: &Equipment, hint: &HintText) -> bool {
    let (own, found) = (running.sources(), other.sources());
    let mut pairs = own.iter().zip(found);
    tell_rows("source", own, found, hint)
        || pairs.any(|(own, found)| tell_source(running.receivers(), own, found, hint))
}

/// Says in what a source differs, and answers whether it does.
fn tell_source(
    receivers: &[ReceiverRow],
    own: &SourceRow,
    found: &SourceRow,
    hint: &HintText,
) -> bool {
    if own.receiver == found.receiver && own.label == found.label && own.sdi == found.sdi {
        return false;
    }
    hint.say_one("source {} has ", own.name.as_str());
    if own.receiver != found.receiver {
        let found = receiver_name(receivers, found.receiver);
        let own = receiver_name(receivers, own.receiver);
        hint.say_two("receiver {} in the new table, and {}", found, own);
    } else if own.label != found.label {
        hint.say_value("label ", found.label);
        hint.say_value(" in the new table, and ", own.label);
    } else {
        say_sdi("sdi ", found.sdi, hint);
        say_sdi(" in the new table, and ", own.sdi, hint);
    }
    hint.end(" in the first table");
    true
}

/// Says words, and an SDI as a table writes it.
fn say_sdi(words: &str, sdi: Option<Sdi>, hint: &HintText) {
    match sdi {
        Some(sdi) => hint.say_value(words, sdi),
        None => hint.say_value(words, "any"),
    }
}

/// Says which group differs first, in its name or its bit rate, and answers whether one does.
fn tell_groups(running: &[GroupRow], other: &[GroupRow], hint: &HintText) -> bool {
    let mut pairs = running.iter().zip(other);
    tell_rows("group", running, other, hint)
        || pairs.any(|(own, found)| tell_rate(own, found, hint))
}

/// Says both bit rates of a group if they differ, and answers whether they do.
fn tell_rate(own: &GroupRow, found: &GroupRow, hint: &HintText) -> bool {
    if own.rate == found.rate {
        return false;
    }
    hint.say_one("group {}", own.name.as_str());
    hint.end_two(
        " has rate {} in the new table, and {} in the first table",
        found.rate,
        own.rate,
    );
    true
}
