//! Words that came in, with words that were sent and may be these.

use crate::spans::{Recorded, Span, count_below, count_up_to, joined};
use a429_text::Gathered;
use std::alloc::{AllocError, Global};

/// What is added to the difference of two times, so that it is not below 0: more than any time.
pub const ZERO: u64 = 1_125_899_906_842_624;

/// A word is not looked at if there are more pairs of it.
const MOST_PAIRS: usize = 64;

/// A moment at which a word came in or went, and one at which it was sent first or last.
#[derive(Clone, Copy)]
pub struct Moments {
    pub heard: u64,
    pub sent: u64,
}

impl Moments {
    /// How long after the first moment the second one is, and `ZERO`.
    pub fn delay(&self) -> u64 {
        ZERO.saturating_add(self.sent).saturating_sub(self.heard)
    }
}

/// The moments at which words came in and were sent first, and those at which they went and were sent last.
#[derive(Drop)]
pub struct Pairs {
    pub begins: Vec<Moments>,
    pub ends: Vec<Moments>,
}

/// The joined spans of a recording, and the times from which on and up to which the moments of a word count: the word was not
/// there for some time before, or after.
#[derive(Clone, Copy)]
struct UsableSpans<'a> {
    spans: &'a [Span],
    from: u64,
    until: u64,
}

impl UsableSpans<'_> {
    /// How many spans have these bits.
    fn count(&self, raw: u32) -> usize {
        count_up_to(self.spans, raw).saturating_sub(count_below(self.spans, raw))
    }

    /// Whether the beginning of a span counts.
    fn begins(&self, span: &Span) -> bool {
        span.from >= self.from
    }

    /// Whether its end counts.
    fn ends(&self, span: &Span) -> bool {
        span.until <= self.until
    }
}

/// The spans of a recording that count.
fn usable<'a>(spans: &'a [Span], recorded: &Recorded, quiet: u64) -> UsableSpans<'a> {
    UsableSpans {
        spans,
        from: recorded.begin.saturating_add(quiet),
        until: recorded.end.saturating_sub(quiet),
    }
}

/// Adds the moments of a word that came in, with each of those of the same bits that were sent.
fn add_pairs(
    begins: &mut Gathered<Moments>,
    ends: &mut Gathered<Moments>,
    heard: &UsableSpans<'_>,
    sent: &UsableSpans<'_>,
    span: &Span,
) {
    if heard.count(span.raw).saturating_mul(sent.count(span.raw)) > MOST_PAIRS {
        return;
    }
    for place in count_below(sent.spans, span.raw)..count_up_to(sent.spans, span.raw) {
        let Some(other) = sent.spans.get(place) else {
            return;
        };
        if heard.begins(span) && sent.begins(other) {
            begins.push(Moments {
                heard: span.from,
                sent: other.from,
            });
        }
        if heard.ends(span) && sent.ends(other) {
            ends.push(Moments {
                heard: span.until,
                sent: other.until,
            });
        }
    }
}

/// The moments of words that are not there for `quiet` microseconds before or after. Error: an allocation failed.
pub fn pairs_of(
    alloc: Global,
    heard: &Recorded,
    sent: &Recorded,
    quiet: u64,
) -> Result<Pairs, AllocError> {
    let came = joined(alloc, &heard.spans, quiet)?;
    let went = joined(alloc, &sent.spans, quiet)?;
    let came = usable(&came, heard, quiet);
    let went = usable(&went, sent, quiet);
    let mut begins = Gathered::new(alloc);
    let mut ends = Gathered::new(alloc);
    for span in came.spans {
        add_pairs(&mut begins, &mut ends, &came, &went, span);
    }
    let begins = begins.into_vec()?;
    Ok(Pairs {
        begins,
        ends: ends.into_vec()?,
    })
}

/// The delays of these moments, sorted.
fn delays(alloc: Global, moments: &[Moments]) -> Result<Vec<u64>, AllocError> {
    let mut delays = Gathered::new(alloc);
    for pair in moments {
        delays.push(pair.delay());
    }
    let mut delays = delays.into_vec()?;
    delays.sort_unstable();
    Ok(delays)
}

/// The delay from which on most delays are at most `width` greater. `None` if there is none. Error: an allocation failed.
pub fn usual_delay(
    alloc: Global,
    begins: &[Moments],
    width: u64,
) -> Result<Option<u64>, AllocError> {
    let delays = delays(alloc, begins)?;
    let mut most = 0;
    let mut usual = None;
    for place in 0..delays.len() {
        let Some(delay) = delays.get(place) else {
            break;
        };
        let last = delay.saturating_add(width);
        let many = delays
            .partition_point(|other| *other <= last)
            .saturating_sub(place);
        if many > most {
            most = many;
            usual = Some(*delay);
        }
    }
    Ok(usual)
}

/// How many moments are looked at.
const MOST_MOMENTS: usize = 2048;

/// The moments with a delay from the least to the greatest. If there are too many, each second or third and so on. Error: an
/// allocation failed.
pub fn within(
    alloc: Global,
    moments: &[Moments],
    least: u64,
    greatest: u64,
) -> Result<Vec<Moments>, AllocError> {
    let mut all = Gathered::new(alloc);
    for pair in moments {
        let delay = pair.delay();
        if least <= delay && delay <= greatest {
            all.push(*pair);
        }
    }
    thinned(alloc, &all.into_vec()?)
}

/// At most `MOST_MOMENTS` of these, evenly.
fn thinned(alloc: Global, moments: &[Moments]) -> Result<Vec<Moments>, AllocError> {
    let stride = moments.len() / MOST_MOMENTS + 1;
    let mut all = Gathered::new(alloc);
    for place in 0..moments.len() {
        if place % stride == 0 {
            all.push(moments[place]);
        }
    }
    all.into_vec()
}
