//! Events of a station.

use a429_slots::{OUTPUTS, Proposal};

/// What happens to a station. Receivers and groups are numbered from 0 in table order.
#[derive(Drop)]
pub enum Event {
    /// A raw word comes in at a receiver.
    Arrive { receiver: usize, raw: u32 },
    /// A group sends its next cell.
    Cell { group: usize },
    /// A group goes on to its next frame, by the newest plan.
    Frame { group: usize },
    /// A newer plan is proposed, for all groups.
    Publish { proposal: Proposal<OUTPUTS> },
}
