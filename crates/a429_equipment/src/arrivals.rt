//! The source that an arriving word is for.
use thiserror::Error;

/// Why an arriving word is for no source, in the order in which it is asked.
#[derive(Clone, Copy, Debug, PartialEq, Eq, Error)]
pub enum ArrivalRefusal {
    /// An even number of its bits are ones.
    #[error("even parity")]
    Parity,
    /// Its label passes no filter of the receiver.
    #[error("filtered")]
    Filtered,
    /// No source of the receiver has its label and SDI.
    #[error("no source")]
    NoSource,
}
