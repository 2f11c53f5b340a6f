//! The words of logs, noted as they are read.
ghost use Rattle.std.specs.Prelude.{◌≡◌, fold};
ghost use Rattle.a429_recordings.specs.BoxLogs.{notes, span_of};

use crate::judge::marks::note_word;
use crate::judge::spans::{BoxSpan, with_time};
use crate::judge::words::{BoxPart, BoxWord, part_word};
use crate::logs::keeping::{KeepFault, WordKeeper};
use a429_console::refusals::evidence::LineEvidence;
use a429_equipment::Equipment;
use a429_judge::{Judge, Told};
use a429_logs::StatedWord;
use a429_replay::Names;
use std::alloc::Global;
use std::snapshot::Snapshot;

/// A judge that notes the words of a part of logs at places of these names.
#[derive(Drop)]
pub struct NotedWords<'a> {
    pub equipment: &'a Equipment,
    pub names: &'a Names,
    pub part: BoxPart,
    pub judge: Judge,
    /// The times of the words so far.
    pub span: Option<BoxSpan>,
    /// The judge before the first word, and the words so far. Proofs alone read them.
    pub before: Snapshot<Judge>,
    pub told: Told<BoxWord>,
    ghost noted: { judge ≡ fold (notes equipment.now part.log) before.value told },
    ghost spanned: { span ≡ span_of told },
}

impl NotedWords<'_> {
    ghost use Rattle.std.specs.Prelude.{◌++◌, ◌∷◌, []};

    /// Notes a word.
    #[tactic(auto, using(crate::proofs::NotedBoxes::noted_more, crate::proofs::NotedBoxes::span_more))]
    fn note(&mut self, word: BoxWord)
        ensures told { self.new.told ≡ self.old.told ++ word ∷ [] }
        ensures equipment { self.new.equipment ≡ self.old.equipment }
        ensures names { self.new.names ≡ self.old.names }
        ensures part { self.new.part ≡ self.old.part }
        ensures before { self.new.before ≡ self.old.before }
    {
        note_word(&mut self.judge, self.equipment, self.part.log, word);
        self.span = with_time(self.span, word.time);
        self.told.push(&word);
    }
}

impl WordKeeper for NotedWords<'_> {
    ghost use Rattle.std.specs.Prelude.{◌≡◌};
    ghost use Rattle.a429_equipment.specs.TableRecord.{TableRecord};
    ghost use Rattle.a429_judge.specs.Recordings.{JudgedLogs};
    ghost use Rattle.a429_recordings.specs.BoxLogs.{part_word};
    ghost use Rattle.a429_recordings.specs.declared.judge.words.BoxLog.{BoxLog};
    ghost use Rattle.a429_recordings.specs.declared.judge.words.BoxWord.{BoxWord};

    ghost Item = { BoxWord };

    ghost items = { λ kept. part_word kept.names.now kept.part };

    ghost kept = { λ kept. kept.told };

    ghost Fixed = { TableRecord × BoxLog × JudgedLogs };

    ghost fixed = { λ kept. (kept.equipment.now, kept.part.log, kept.before.value) };

    /// Notes a word, unless it is of the other kind. Error: it makes its line faulty.
    fn keep(&mut self, word: StatedWord<'_>) -> Result<(), KeepFault> {
        match part_word(self.names, self.part, word) {
            Ok(Some(word)) => self.note(word),
            Ok(None) => {}
            Err(why) => return Err(KeepFault::Line(why)),
        }
        Ok(())
    }

    fn line_evidence(&self, alloc: Global, text: &[u8], line: usize) -> Option<LineEvidence> {
        self.names.line_evidence(alloc, text, line, 0)
    }
}
