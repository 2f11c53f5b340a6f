//! The words of logs, noted.
ghost use Rattle.std.specs.Prelude.{◌≡◌};
ghost use Rattle.a429_recordings.specs.BoxLogs.{IsNoting, part_word_by, texts_of_logs};
ghost use Rattle.a429_recordings.specs.LogItems.{PassesNone};
ghost use Rattle.a429_recordings.specs.LogViews.{view_of};

use crate::judge::noted::NotedWords;
use crate::judge::spans::BoxSpan;
use crate::judge::words::BoxPart;
use crate::logs::keeping::freeing::keep_logs_and_free;
use crate::logs::keeping::keep_logs;
use crate::logs::views::LogView;
use a429_console::files::FileReader;
use a429_console::hints::warnings::Warning;
use a429_console::refusals::Refused;
use a429_equipment::Equipment;
use a429_judge::{Judge, Told};
use a429_logs::Reading;
use a429_replay::Names;
use std::alloc::Global;
use std::snapshot::Snapshot;

/// A judge that has noted the words of logs, the times of these, and how the log after them would be read.
#[derive(Drop)]
pub struct NotedLogs<'a> {
    pub judge: Judge,
    pub span: Option<BoxSpan>,
    pub next: Reading<'a>,
}

/// The words of a part of logs: which of them are taken, how the first line is read, and the number of the first log.
#[derive(Clone, Copy)]
pub struct PartLogs<'a> {
    pub view: LogView<'a>,
    pub part: BoxPart,
    pub reading: Reading<'a>,
    pub first: usize,
}

/// The texts of logs: they stay as they are, or their memory is given back as they are read.
#[derive(Drop)]
pub enum LogTexts<'a> {
    Kept(&'a [Vec<Vec<u8>>]),
    Freed(Vec<Vec<Vec<u8>>>),
}

/// Notes the words of a part of logs, one after another as if they were one, as they are taken. What is passed over is noted.
/// Error: the number of the first faulty line, from 1 in its log, or an allocation failed. A line is faulty as the reader of logs says.
/// It is faulty too if there is no place of its name, or places of both kinds, or if its word is at 10^14 us or later.
pub fn note_logs<'a, F: FileReader>(
    alloc: Global,
    files: &F,
    equipment: &Equipment,
    names: &Names,
    logs: PartLogs<'a>,
    texts: LogTexts<'_>,
    judge: Judge,
    warnings: &mut Vec<Warning>,
) -> Result<NotedLogs<'a>, Refused>
    ensures silent { PassesNone logs.entry.reading (texts_of_logs texts.entry) → warnings.new.items ≡ warnings.old.items }
    ensures noted { IsNoting equipment.now logs.entry.part.log
        (part_word_by names.now (view_of logs.entry.view) logs.entry.part) logs.entry.reading (texts_of_logs texts.entry) judge result }
{
    let before = Snapshot::of(&judge);
    let PartLogs {
        view,
        part,
        reading,
        first,
    } = logs;
    let mut kept = NotedWords {
        equipment,
        names,
        part,
        judge,
        span: None,
        before,
        told: Told::new(),
    };
    let read = match texts {
        LogTexts::Kept(texts) => keep_logs(
            alloc, files, &mut kept, view, reading, first, texts, warnings,
        ),
        LogTexts::Freed(texts) => keep_logs_and_free(
            alloc, files, &mut kept, view, reading, first, texts, warnings,
        ),
    };
    match read {
        Ok(next) => Ok(NotedLogs {
            judge: kept.judge,
            span: kept.span,
            next,
        }),
        Err(refusal) => Err(refusal),
    }
}
