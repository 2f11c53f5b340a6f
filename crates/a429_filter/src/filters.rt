//! Filters of labels.
ghost use Rattle.std.specs.Prelude.{◌≡◌, ◌≤◌, ◌++◌, ◌∷◌, [], ◌↔◌, Some, None, length, IsErr, MatchResult, OnOk, OnErr, option_map, if◌then◌else◌};
ghost use Rattle.a429_filter.specs.Filters.{passes, set_passes, filters_of};
ghost use Rattle.a429_filter.specs.FilterTexts.{filter_read};

use crate::passing::Passing;
use a429_word::Label;
use std::marker::Model;
use thiserror::Error;

/// How many filters a receiver can have (profile).
pub const FILTERS: usize = 32;

/// A label, and a mask whose ones are the bits of the label that count (profile).
#[derive(Clone, Copy, PartialEq, Eq)]
pub struct Filter {
    pub label: Label,
    pub mask: u8,
}

/// The text is not of the form `LLL/MMM`, each three octal digits, 000 to 377.
#[derive(Clone, Copy, Debug, PartialEq, Eq, Error)]
#[error("a filter is a label and a mask of three octal digits each: 203/377")]
pub struct FilterText;

impl Filter {
    /// Reads a label, a slash and a mask, each of three octal digits from 000 to 377, for example `203/377` (profile:
    /// filters). Error: the text is not of this form.
    #[tactic(auto, unfolding(crate::specs::FilterTexts::is_filter, crate::specs::FilterTexts::filter_read, a429_word::specs::Texts::octal_number))]
    pub fn parse(text: &str) -> Result<Filter, FilterText>
        ensures { MatchResult result (λ filter. filter_read text.now ≡ Some filter) (λ _. filter_read text.now ≡ None) }
    {
        let bytes = text.as_bytes();
        if bytes.len() != 7 || bytes[3] != b'/' {
            return Err(FilterText);
        }
        match (Label::of_digits(&bytes[..3]), Label::of_digits(&bytes[4..])) {
            (Some(label), Some(mask)) => Ok(Filter {
                label,
                mask: mask.value(),
            }),
            _ => Err(FilterText),
        }
    }

    /// Whether a label agrees with the filter's in the bits of the mask.
    pub fn passes(self, label: Label) -> bool
        ensures { result ≡ passes self label }
    {
        label.value() & self.mask == self.label.value() & self.mask
    }
}

/// The set holds 32 filters already.
#[derive(Clone, Copy, Debug, PartialEq, Eq, Error)]
#[error("a receiver has at most 32 filters")]
pub struct Full;

/// The filters of a receiver: a list of at most 32, of which one has to pass a label, or no list,
/// which passes every label (profile).
#[derive(Drop)]
pub struct FilterSet {
    listed: bool,
    len: usize,
    filters: [Filter; FILTERS],
    passing: Passing,
}

impl Model for FilterSet {
    ghost use Rattle.std.specs.Prelude.{◌≤◌, List, Option, Some, None, take, if◌then◌else◌};
    ghost use Rattle.a429_filter.specs.declared.filters.Filter.{Filter};
    ghost use Rattle.a429_filter.specs.Passing.{TellsPassing};

    ghost Value = { Option (List Filter) };

    ghost view = { λ s. if s.listed then Some (take s.len s.filters) else None };

    ghost invariant = { λ s. (s.len ≤ 32) × TellsPassing s.passing (if s.listed then Some (take s.len s.filters) else None) };
}

impl FilterSet {
    /// The set without a list, which passes every label.
    pub fn all() -> Self
        ensures { result ≡ None }
    {
        FilterSet::empty(false)
    }

    /// The set of an empty list, which passes no label.
    pub fn none() -> Self
        ensures { result ≡ Some [] }
    {
        FilterSet::empty(true)
    }

    fn empty(listed: bool) -> Self
        ensures { result ≡ (if listed then Some [] else None) }
    {
        let unused = Filter {
            label: Label::new(0),
            mask: 0,
        };
        FilterSet {
            listed,
            len: 0,
            filters: [unused; FILTERS],
            passing: Passing::each(!listed),
        }
    }

    /// Adds a filter at the end of the list; a set without a list gets one with this filter. Error: if and only if the
    /// list holds 32 filters; the set is then as before.
    pub fn add(&mut self, filter: Filter) -> Result<(), Full>
        ensures full { IsErr result ↔ (length (filters_of self.old) ≡ 32) }
        ensures ok { OnOk result (self.new ≡ Some (filters_of self.old ++ filter ∷ [])) }
        ensures err { OnErr result (self.new ≡ self.old) }
    {
        let len = if self.listed { self.len } else { 0 };
        if len == FILTERS {
            return Err(Full);
        }
        if !self.listed {
            self.passing = Passing::each(false);
        }
        self.passing = self.passing.with(&filter);
        self.filters[len] = filter;
        self.len = len + 1;
        self.listed = true;
        Ok(())
    }

    /// A copy of the set.
    pub fn copied(&self) -> Self
        ensures { result ≡ self.now }
    {
        if self.listed {
            set_of(&self.filters[..self.len])
        } else {
            FilterSet::all()
        }
    }

    /// The filters in the order in which they were added; `None` without a list.
    pub fn list(&self) -> Option<&[Filter]>
        ensures { option_map (λ filters. filters.now) result ≡ self.now }
    {
        if self.listed {
            Some(&self.filters[..self.len])
        } else {
            None
        }
    }

    /// Whether a label passes: there is no list, or a filter of it passes the label. The cost does not grow
    /// with the number of filters.
    pub fn passes(&self, label: Label) -> bool
        ensures { result ≡ set_passes self.now label }
    {
        self.passing.passes(label)
    }
}

/// The set of this list.
fn set_of(filters: &[Filter]) -> FilterSet
    requires { length filters.now ≤ 32 }
    ensures { result ≡ Some filters.now }
{
    let mut set = FilterSet::none();
    for filter in filters {
        // A set takes 32 filters, so none of these is refused.
        let _ = set.add(*filter);
    }
    set
}
