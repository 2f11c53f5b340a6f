//! Logs of words at receivers of a station.
ghost use Rattle.std.specs.Prelude.{◌≡◌, IfOk};
ghost use Rattle.a429_recordings.specs.LogItems.{PassesNone};
ghost use Rattle.a429_console.specs.Files.{logs_of};
ghost use Rattle.a429_recordings.specs.LogViews.{view_of};
ghost use Rattle.a429_recordings.specs.SimulationLog.{AreInTime, IsLogReading};

use crate::logs::keeping::{KeepFault, WordKeeper, keep_logs};
use crate::logs::views::LogView;
use a429_console::files::FileReader;
use a429_console::hints::warnings::Warning;
use a429_console::refusals::Refused;
use a429_console::refusals::evidence::{LineEvidence, LogRefusal};
use a429_logs::{Reading, StatedWord};
use a429_replay::Names;
use std::alloc::Global;

/// A word of a log: when it comes in, in microseconds, less than 10^14; at which receiver; and its 32 bits. Receivers are
/// numbered from 0 in table order.
#[derive(Clone, Copy)]
pub struct LogWord {
    pub time: u64,
    pub receiver: u8,
    pub raw: u32,
}

/// The words of logs for the receivers of these names.
#[derive(Drop)]
struct ReceiverWords<'a> {
    names: &'a Names,
    words: Vec<LogWord>,
}

impl WordKeeper for ReceiverWords<'_> {
    ghost use Rattle.std.specs.Prelude.{ℕ};
    ghost use Rattle.a429_recordings.specs.LogViews.{one_item};
    ghost use Rattle.a429_recordings.specs.SimulationLog.{word_for};
    ghost use Rattle.a429_recordings.specs.declared.simulate.log.LogWord.{LogWord};

    ghost Item = { LogWord };

    ghost items = { λ kept. one_item (word_for kept.names.now) };

    ghost kept = { λ kept. kept.words.items };

    ghost Fixed = { ℕ };

    ghost fixed = { λ _. 0 };

    /// Keeps a word. Error: no receiver has its name, its time is not below 10^14 us, or an allocation failed.
    #[tactic(auto, using(crate::proofs::LogLines::kept_one), unfolding(crate::specs::SimulationLog::word_for))]
    fn keep(&mut self, word: StatedWord<'_>) -> Result<(), KeepFault> {
        let Some(receiver) = self.names.receiver(word.name) else {
            return Err(KeepFault::Line(LogRefusal::Receiver));
        };
        if word.time >= 100_000_000_000_000 {
            return Err(KeepFault::Line(LogRefusal::Late));
        }
        self.words.push(LogWord {
            time: word.time,
            receiver,
            raw: word.raw,
        })?;
        Ok(())
    }

    fn line_evidence(&self, alloc: Global, text: &[u8], line: usize) -> Option<LineEvidence> {
        self.names.line_evidence(alloc, text, line, 0)
    }
}

/// Reads logs, one after another as if they were one, for the receivers of these names, with words as they are taken. What is
/// passed over is noted. Error: the number of the first faulty line, from 1 in its log, or an allocation failed. A line is faulty as the reader
/// of logs says, or if its word is at no receiver, or at 10^14 us or later.
pub fn read_words<'a, F: FileReader>(
    alloc: Global,
    files: &F,
    names: &Names,
    view: LogView<'a>,
    reading: Reading<'a>,
    logs: &'a [Vec<Vec<u8>>],
    warnings: &mut Vec<Warning>,
) -> Result<Vec<LogWord>, Refused>
    ensures silent { PassesNone reading.entry (logs_of logs.now) → warnings.new.items ≡ warnings.old.items }
    ensures words { IsLogReading names.now (view_of view.entry) reading.entry (logs_of logs.now) result }
    ensures in_time { IfOk result (λ words. AreInTime words.items) }
{
    let mut kept = ReceiverWords {
        names,
        words: Vec::new(alloc),
    };
    match keep_logs(alloc, files, &mut kept, view, reading, 0, logs, warnings) {
        Ok(_) => Ok(kept.words),
        Err(refusal) => Err(refusal),
    }
}
