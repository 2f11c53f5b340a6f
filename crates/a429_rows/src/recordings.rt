//! Words of recordings whose times fall.
ghost use Rattle.std.specs.Prelude.{◌<◌, length};
ghost use Rattle.a429_judge.specs.Recordings.{group_at};

use a429_judge::{Duty, Facts, Judge, JudgeFault, Judgement, Mark, Sent, Verdict};
use a429_survey::Survey;
use a429_text::{Sheet, SheetForm};
use std::alloc::Global;
use std::process::Abort;

/// The times and bits of words of label 200. The second is before the first; the last has the greatest time.
static WORDS: [(u64, u32); 3] = [
    (1000, 0x80000001),
    (400, 0x00000001),
    (u64::MAX, 0x00000001),
];

/// Their sheet, reckoned by hand: the interval to the earlier time is 0, and a mean is at most 2^64 - 1 tenths.
const SHEET: &str = "\
name,label,sdi,words,even,least_us,mean_us,greatest_us,first_us,last_us,last_word,load
a,200,0,3,1,0,1844674407370955161.5,18446744073709551215,1000,18446744073709551615,00000001,
a,,,3,1,0,1844674407370955161.5,18446744073709551215,1000,18446744073709551615,00000001,0.1
";

/// The sheet of those words at 100000 bit/s.
fn sheet_of_words(rt: &impl Abort, alloc: Global) -> Sheet {
    let mut survey = Survey::new(alloc);
    for (time, raw) in WORDS {
        survey.note("a", time, raw).expect(rt, "a word");
    }
    let sheet = survey.sheet(alloc, 100000).expect(rt, "a sheet");
    sheet
}

#[test]
fn an_interval_to_an_earlier_time_is_0(rt: HostRuntime) {
    let text = sheet_of_words(&rt, rt.alloc())
        .render(rt.alloc(), SheetForm::Csv)
        .expect(&rt, "a text");
    assert!(rt; text.as_slice() == SHEET.as_bytes());
}

/// An output of label 203, which is sent every 1440 µs.
const DUTY: Duty = Duty {
    group: 0,
    source: 0,
    label: 131,
    sdi: Some(0),
    bus: 0,
    facts: Facts {
        rate: 100000,
        period: 4,
        least: 1000,
        greatest: 2000,
        hold: None,
        tolerance: 720,
    },
};

/// A word of the output of `DUTY`, at a time in microseconds.
fn mark(time: u64) -> Mark {
    Mark {
        time,
        raw: 0x000000c1,
    }
}

/// A word that the output of `DUTY` sent, at a time in microseconds.
fn sent(time: u64) -> Sent {
    Sent {
        group: 0,
        bus: None,
        mark: mark(time),
    }
}

/// A judge of the output of `DUTY`, after a word that came in and was sent.
fn judge_of_words(rt: &impl Abort, alloc: Global) -> Judge
    ensures { 0 < length (group_at result.duties 0) }
{
    let outputs = vec![in alloc; DUTY].expect(rt, "outputs");
    let groups = vec![in alloc; outputs].expect(rt, "groups");
    let mut judge = Judge::new(alloc, groups).expect(rt, "a judge");
    judge.heard(Some(0), mark(1000));
    judge.sent(sent(1440));
    judge
}

/// The judgement of that output.
fn judgement_of_words(rt: &impl Abort, alloc: Global) -> Judgement {
    let judge = judge_of_words(rt, alloc);
    let judgement = judge.judgement(alloc, 0, 0).expect(rt, "a judgement");
    judgement
}

#[test]
fn a_word_that_was_sent_is_judged(rt: HostRuntime) {
    let judgement = judgement_of_words(&rt, rt.alloc());
    assert!(rt; judgement.verdict == Verdict::TooShort && judgement.sent == 1);
    assert!(rt; judgement.delay == Some(440) && judgement.found == 0);
}

/// Whether the output is not judged, since the times of a log fall.
fn is_refused(judge: &Judge, alloc: Global) -> bool
    requires { 0 < length (group_at judge.now.duties 0) }
{
    match judge.judgement(alloc, 0, 0) {
        Err(fault) => fault == JudgeFault::TimesFall,
        Ok(_) => false,
    }
}

#[test]
fn words_of_falling_times_are_not_judged(rt: HostRuntime) {
    let mut judge = judge_of_words(&rt, rt.alloc());
    judge.heard(Some(0), mark(999));
    assert!(rt; is_refused(&judge, rt.alloc()));
    let mut judge = judge_of_words(&rt, rt.alloc());
    judge.sent(sent(1439));
    assert!(rt; is_refused(&judge, rt.alloc()));
}
