//! The times between which a log has words.
ghost use Rattle.std.specs.Prelude.{◌≡◌};
ghost use Rattle.a429_recordings.specs.BoxLogs.{meet, with_time};

/// The times of the first and the last word of a log, in microseconds.
#[derive(Clone, Copy)]
pub struct BoxSpan {
    pub first: u64,
    pub last: u64,
}

/// The span of a log with one more word, at this time. `None`: the log has no word.
pub fn with_time(span: Option<BoxSpan>, time: u64) -> Option<BoxSpan>
    ensures { result ≡ with_time span time }
{
    let first = match span {
        Some(span) => span.first,
        None => time,
    };
    Some(BoxSpan { first, last: time })
}

/// Whether two logs have a time in common.
pub fn meet(span: Option<BoxSpan>, other: Option<BoxSpan>) -> bool
    ensures { result ≡ meet span other }
{
    match (span, other) {
        (Some(span), Some(other)) => span.first <= other.last && other.first <= span.last,
        _ => false,
    }
}
