//! The figures of some words.
ghost use Rattle.std.specs.Prelude.{◌≡◌, ◌<◌, ◌==◌, if◌then◌else◌, min};
ghost use Rattle.a429_word.specs.Bits.{has_odd_parity, ssm_of};
ghost use Rattle.a429_survey.specs.Kept.{figures_with, first_figures, next_figures, no_figures, no_ssm, place_of, ssm_with};

/// How many words have each SSM.
#[derive(Clone, Copy)]
pub struct SsmCounts {
    pub zero: u64,
    pub one: u64,
    pub two: u64,
    pub three: u64,
}

/// The figures of some words of a recording, with times and intervals in microseconds. All are 0 if there is no word.
#[derive(Clone, Copy)]
pub struct Figures {
    /// How many words there are.
    pub words: u64,
    /// How many of them have even parity.
    pub even: u64,
    /// The least interval from a word to the next; 0 if there is none.
    pub least: u64,
    /// The greatest; 0 if there is none.
    pub greatest: u64,
    /// The time of the first word.
    pub first: u64,
    /// The time of the last word.
    pub last: u64,
    /// The bits of the last word.
    pub last_word: u32,
    pub ssm: SsmCounts,
}

/// Whether an odd number of the bits are ones.
#[tactic(auto, using(a429_word::proofs::Ones::ones_are))]
fn is_odd(raw: u32) -> bool
    ensures { result ≡ has_odd_parity raw }
{
    raw.count_ones() % 2 == 1
}

/// The place of a word's label and SDI.
#[tactic(auto, using(a429_word::proofs::Fields::label_is, a429_word::proofs::Fields::sdi_is))]
pub fn place_of(raw: u32) -> usize
    ensures value { result ≡ place_of raw }
    ensures within { result < 1024 }
{
    let low = (raw & 0xff) as u8;
    let sdi = (raw >> 8) & 3;
    4 * usize::from(low.reverse_bits()) + sdi as usize
}

/// The SSM of a word.
#[tactic(auto, using(crate::proofs::DataBits::ssm_is))]
pub fn ssm_of(raw: u32) -> u32
    ensures value { result ≡ ssm_of raw }
    ensures small { result < 4 }
{
    (raw >> 29) & 3
}

impl SsmCounts {
    /// Those of no word.
    fn none() -> SsmCounts
        ensures { result ≡ no_ssm }
    {
        SsmCounts {
            zero: 0,
            one: 0,
            two: 0,
            three: 0,
        }
    }

    /// Counts one more word. A count that is 2^64 - 1 stays.
    fn note(&mut self, raw: u32)
        ensures { self.new ≡ ssm_with raw self.old }
    {
        match ssm_of(raw) {
            0 => self.zero = self.zero.saturating_add(1),
            1 => self.one = self.one.saturating_add(1),
            2 => self.two = self.two.saturating_add(1),
            _ => self.three = self.three.saturating_add(1),
        }
    }
}

impl Figures {
    /// The figures of no word.
    pub fn none() -> Figures
        ensures { result ≡ no_figures }
    {
        Figures {
            words: 0,
            even: 0,
            least: 0,
            greatest: 0,
            first: 0,
            last: 0,
            last_word: 0,
            ssm: SsmCounts::none(),
        }
    }

    /// Those of the first word.
    fn of_first(time: u64, raw: u32) -> Figures
        ensures { result ≡ first_figures time raw }
    {
        let mut ssm = SsmCounts::none();
        ssm.note(raw);
        Figures {
            words: 1,
            even: u64::from(!is_odd(raw)),
            least: 0,
            greatest: 0,
            first: time,
            last: time,
            last_word: raw,
            ssm,
        }
    }

    /// The least interval, after one more.
    fn least_with(&self, interval: u64) -> u64
        ensures { result ≡ (if self.now.words == 1 then interval else min self.now.least interval) }
    {
        if self.words == 1 {
            interval
        } else {
            self.least.min(interval)
        }
    }

    /// Takes one more word, with its time. A count that is 2^64 - 1 stays: a survey has no more words.
    pub fn note(&mut self, time: u64, raw: u32)
        ensures { self.new ≡ figures_with time raw self.old }
    {
        if self.words == 0 {
            *self = Figures::of_first(time, raw);
        } else {
            self.note_next(time.saturating_sub(self.last), time, raw);
        }
    }

    /// Takes a word that is not the first, with the interval to it.
    fn note_next(&mut self, interval: u64, time: u64, raw: u32)
        ensures { self.new ≡ next_figures interval time raw self.old }
    {
        self.least = self.least_with(interval);
        self.greatest = self.greatest.max(interval);
        self.words = self.words.saturating_add(1);
        if !is_odd(raw) {
            self.even = self.even.saturating_add(1);
        }
        self.last = time;
        self.last_word = raw;
        self.ssm.note(raw);
    }
}
