//! The places of a fault, for a hint.

use crate::fault::TablePlace;
use std::alloc::{AllocError, Global};

/// Places of a table with a fault of one kind, in walk order.
#[derive(Drop)]
pub struct FaultPlaces {
    /// The first ones.
    pub first: Vec<TablePlace>,
    /// How many there are after these.
    pub more: usize,
    most: usize,
}

impl FaultPlaces {
    /// No place yet. This many will be kept.
    pub fn none(alloc: Global, most: usize) -> FaultPlaces {
        FaultPlaces {
            first: Vec::new(alloc),
            more: 0,
            most,
        }
    }

    /// Notes one more place. Error: an allocation failed.
    pub fn note(&mut self, place: TablePlace) -> Result<(), AllocError> {
        if self.first.len() < self.most {
            self.first.push(place)?;
        } else {
            self.more = self.more.saturating_add(1);
        }
        Ok(())
    }
}
