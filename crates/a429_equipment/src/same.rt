//! Whether the rows of two tables are the same.
ghost use Rattle.std.specs.Prelude.{◌≡◌};
ghost use Rattle.a429_equipment.specs.SameStation.{all_agree, same_filter, same_filters, same_number, same_receiver, same_sdi, same_source, same_group};

use crate::rows::{GroupRow, ReceiverRow, SourceRow};
use a429_filter::{Filter, FilterSet};
use a429_word::Sdi;

fn same_filter_lists(a: &[Filter], b: &[Filter]) -> bool
    ensures { result ≡ all_agree same_filter a.now b.now }
{
    a.len() == b.len()
        && a.iter()
            .zip(b)
            .all(|(a, b)| a.label == b.label && a.mask == b.mask)
}

/// Whether two lists of filters are the same, in order, or both are none.
pub fn same_filters(a: &FilterSet, b: &FilterSet) -> bool
    ensures { result ≡ same_filters a.now b.now }
{
    match (a.list(), b.list()) {
        (None, None) => true,
        (Some(a), Some(b)) => same_filter_lists(a, b),
        _ => false,
    }
}

fn same_receiver(a: &ReceiverRow, b: &ReceiverRow) -> bool
    ensures { result ≡ same_receiver a.now b.now }
{
    a.name.as_str() == b.name.as_str() && same_filters(&a.filters, &b.filters)
}

/// Whether the receivers have equal names and filters, each in order.
pub fn same_receivers(a: &[ReceiverRow], b: &[ReceiverRow]) -> bool
    ensures { result ≡ all_agree same_receiver a.now b.now }
{
    a.len() == b.len() && a.iter().zip(b).all(|(a, b)| same_receiver(a, b))
}

/// Whether both are the same number, or both are `None`.
pub fn same_number(a: Option<u64>, b: Option<u64>) -> bool
    ensures { result ≡ same_number a b }
{
    match (a, b) {
        (None, None) => true,
        (Some(a), Some(b)) => a == b,
        _ => false,
    }
}

/// Whether two SDIs are the same number, or both are any.
pub fn same_sdi(a: Option<Sdi>, b: Option<Sdi>) -> bool
    ensures { result ≡ same_sdi a b }
{
    match (a, b) {
        (None, None) => true,
        (Some(a), Some(b)) => a == b,
        _ => false,
    }
}

fn same_source(a: &SourceRow, b: &SourceRow) -> bool
    ensures { result ≡ same_source a.now b.now }
{
    a.name.as_str() == b.name.as_str()
        && a.receiver == b.receiver
        && a.label == b.label
        && same_sdi(a.sdi, b.sdi)
}

/// Whether the sources are the same, each in order.
pub fn same_sources(a: &[SourceRow], b: &[SourceRow]) -> bool
    ensures { result ≡ all_agree same_source a.now b.now }
{
    a.len() == b.len() && a.iter().zip(b).all(|(a, b)| same_source(a, b))
}

fn same_group(a: &GroupRow, b: &GroupRow) -> bool
    ensures { result ≡ same_group a.now b.now }
{
    a.name.as_str() == b.name.as_str() && a.rate == b.rate
}

/// Whether the groups have equal names and rates, each in order.
pub fn same_groups(a: &[GroupRow], b: &[GroupRow]) -> bool
    ensures { result ≡ all_agree same_group a.now b.now }
{
    a.len() == b.len() && a.iter().zip(b).all(|(a, b)| same_group(a, b))
}
