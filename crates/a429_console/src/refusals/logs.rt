//! What is known of a refused line of a log, for a hint.

use a429_logs::{LineFault, Shape, TimeUnit};

/// Why a line of a log is refused.
#[derive(Clone, Copy)]
pub enum LogRefusal {
    /// It is faulty.
    Line(LineFault),
    /// No receiver has the name of its word.
    Receiver,
    /// Neither a receiver nor a group has it.
    Neither,
    /// Both a receiver and a group have it.
    Both,
    /// The name of its word is not UTF-8.
    Name,
    /// No group has the name of its word, or the group has no bus of its number.
    Group,
    /// Its time is too late.
    Late,
}

/// Why a line of a log is refused, and how it was read.
#[derive(Clone, Copy)]
pub struct LogEvidence {
    pub why: LogRefusal,
    /// The number of the log, from 0.
    pub number: usize,
    /// The form of the log's rows. `None` if the line is the first that states something.
    pub shape: Option<Shape>,
    /// The unit of times.
    pub unit: TimeUnit,
}
