//! The sheets of `judge`.
ghost use Rattle.std.specs.Prelude.{false, true, IfOk};
ghost use Rattle.a429_recordings.specs.JudgeReplies.{IsJudgeSheet};

use crate::judge::events::{EVENT_COLUMNS, add_events};
use crate::judge::judging::Judging;
use crate::judge::rows::add_groups;
use a429_console::answered::Found;
use a429_console::reply::{Reply, finding_status};
use a429_judge::COLUMNS;
use a429_text::{Rows, Sheet, SheetForm};
use std::alloc::{AllocError, Global};

/// A row for each output and each group, which are left for a hint. Error: an allocation failed.
fn row_sheet(alloc: Global, judging: &Judging<'_>, form: SheetForm) -> Result<Reply, AllocError>
    ensures { IfOk result (IsJudgeSheet false judging.now form) }
{
    let mut rows = Rows::new(alloc);
    let found = add_groups(&mut rows, alloc, judging)?;
    let sheet = Sheet {
        columns: COLUMNS,
        rows,
    };
    let bytes = sheet.render(alloc, form)?;
    Ok(Reply {
        bytes,
        status: finding_status(found),
        found: Found::Rows(sheet),
    })
}

/// A row for each finding. Error: an allocation failed.
fn event_sheet(alloc: Global, judging: &Judging<'_>, form: SheetForm) -> Result<Reply, AllocError>
    ensures { IfOk result (IsJudgeSheet true judging.now form) }
{
    let mut rows = Rows::new(alloc);
    add_events(&mut rows, alloc, judging)?;
    let found = !rows.is_empty()?;
    let sheet = Sheet {
        columns: EVENT_COLUMNS,
        rows,
    };
    let bytes = sheet.render(alloc, form)?;
    Ok(Reply {
        bytes,
        status: finding_status(found),
        found: Found::Nothing,
    })
}

/// The sheet that is asked for. The status is 1 if something was found, otherwise 0. Error: an allocation failed.
pub fn judge_sheet(
    alloc: Global,
    judging: &Judging<'_>,
    events: bool,
    form: SheetForm,
) -> Result<Reply, AllocError>
    ensures { IfOk result (IsJudgeSheet events judging.now form) }
{
    if events {
        event_sheet(alloc, judging, form)
    } else {
        row_sheet(alloc, judging, form)
    }
}
