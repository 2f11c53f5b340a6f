//! The command `import`: an equipment table from rows of comma-separated values.
ghost use Rattle.std.specs.Prelude.{◌≡◌, ◌++◌, IfOk, OnOk, map, string_bytes};
ghost use Rattle.a429_console.specs.Readings.{HasRead};
ghost use Rattle.a429_cli.specs.Importing.{HasNoMillisGroup, HasNoShortGroup, ImportsSilently, IsImportReply, csv_kind, import_refusal};
ghost use Rattle.a429_import.specs.ImportMaps.{given_texts, heading_texts};
ghost use Rattle.a429_import.specs.Imports.{IsImport};

mod short_intervals;

use crate::import::short_intervals::{note_millis_groups, note_short_intervals};
use a429_console::files::FileReader;
use a429_console::files::reading::read_file;
use a429_console::hints::warnings::Warning;
use a429_console::refusals::evidence::Evidence;
use a429_console::refusals::kinds::CsvKind;
use a429_console::refusals::rows::RowsEvidence;
use a429_console::refusals::{CommandRefusal, Refused};
use a429_console::reply::Reply;
use a429_import::{
    CsvFaultKind, ImportFault, ImportOptions, Imported, RefusedRows, Watch, heading_texts,
    import_table, keep_texts,
};
use a429_table::TableFault;
use std::alloc::{AllocError, Global};

/// What is wrong with a row, as a refusal has it.
fn csv_kind(kind: CsvFaultKind) -> CsvKind
    ensures { result ≡ csv_kind kind }
{
    match kind {
        CsvFaultKind::Form => CsvKind::Form,
        CsvFaultKind::Column => CsvKind::Column,
        CsvFaultKind::Differs => CsvKind::Differs,
        CsvFaultKind::TooMany => CsvKind::TooMany,
    }
}

/// The refusal for a fault.
fn import_refusal(fault: &ImportFault) -> CommandRefusal
    ensures { result ≡ import_refusal fault.now }
{
    match fault {
        ImportFault::NoMemory => CommandRefusal::Memory,
        ImportFault::Csv { line, kind, .. } => CommandRefusal::Csv {
            line: *line,
            kind: csv_kind(*kind),
        },
        ImportFault::Table(TableFault::NoMemory) => CommandRefusal::Memory,
        ImportFault::Table(TableFault::At(kind, place)) => CommandRefusal::Table(*kind, *place),
    }
}

/// The name of the column that is at fault, if one is.
fn column_name(fault: &ImportFault) -> Option<&'static str> {
    match fault {
        ImportFault::Csv {
            column: Some(column),
            ..
        } => Some(column.name()),
        _ => None,
    }
}

/// What a hint needs of a refused sheet.
fn evidence_of(
    alloc: Global,
    bytes: Vec<u8>,
    fault: &ImportFault,
    refused: Option<RefusedRows>,
) -> Evidence {
    let refused = match refused {
        Some(refused) => refused,
        None => RefusedRows::new(alloc),
    };
    let RefusedRows {
        titles,
        heading,
        rows,
        faulty,
        count,
        is_misquoted,
        ..
    } = refused;
    Evidence::Rows(RowsEvidence {
        bytes,
        column: column_name(fault),
        titles,
        heading,
        rows,
        faulty,
        count,
        is_misquoted,
    })
}

/// Files of which a person sees how much is read.
#[derive(Clone, Copy)]
struct WatchedFiles<'a, F> {
    files: &'a F,
}

impl<F: FileReader> Watch for WatchedFiles<'_, F> {
    fn show_done(&self, done: usize, all: usize) {
        self.files.show_done(done, all);
    }
}

/// The table of `import_table`. A person sees how much is read.
fn import_watched<F: FileReader>(
    alloc: Global,
    files: &F,
    maps: &[&str],
    options: ImportOptions,
    bytes: &[u8],
    refused: &mut Option<RefusedRows>,
) -> Result<Imported, ImportFault>
    ensures { IsImport (given_texts maps.now) options bytes.now result }
{
    let imported = import_table(
        alloc,
        maps,
        options,
        bytes,
        &WatchedFiles { files },
        refused,
    );
    files.show_end();
    imported
}

/// Notes what an import has to warn of: each group whose intervals may be milliseconds, and rows that are notes.
fn note_import(alloc: Global, imported: &Imported, warnings: &mut Vec<Warning>)
    ensures { imported.now.notes ≡ 0 → HasNoShortGroup imported.now.equipment → HasNoMillisGroup imported.now.equipment
        → warnings.new.items ≡ warnings.old.items }
{
    note_short_intervals(&imported.equipment, warnings);
    note_millis_groups(alloc, &imported.equipment, warnings);
    if 0 < imported.notes {
        Warning::note_notes(warnings, imported.notes);
    }
}

/// Appends copies of texts. Error: an allocation failed.
fn push_copies(alloc: Global, all: &mut Vec<String>, texts: &[&str]) -> Result<(), AllocError>
    ensures { OnOk result (map string_bytes all.new.items ≡ map string_bytes all.old.items ++ given_texts texts.now) }
{
    for text in texts {
        all.push(String::from_str(alloc, *text)?)?;
    }
    Ok(())
}

/// The texts HEADING=COLUMN of columns that are read, and those of columns that go along. Error: an allocation failed.
fn all_texts(alloc: Global, maps: &[&str], keeps: &[&str]) -> Result<Vec<String>, AllocError>
    ensures { IfOk result (λ all. map string_bytes all.items ≡ heading_texts (given_texts maps.now) (given_texts keeps.now)) }
{
    let mut all = Vec::new(alloc);
    push_copies(alloc, &mut all, maps)?;
    let kept = keep_texts(alloc, keeps)?;
    push_copies(alloc, &mut all, &heading_texts(alloc, &[], &kept)?)?;
    Ok(all)
}

/// The table that the rows in a file state, with status 0. Their heading is read by texts HEADING=COLUMN, and the columns of
/// `keeps` go along as comments. The options say how rows are read. Each group of the table whose intervals may be
/// milliseconds is noted, and rows that are notes.
/// Errors, in this order: the file is refused, a row has a fault, or the table has one. `Memory` if an allocation fails.
pub fn import_reply<F: FileReader>(
    alloc: Global,
    files: &mut F,
    name: &str,
    maps: &[&str],
    keeps: &[&str],
    options: ImportOptions,
    warnings: &mut Vec<Warning>,
) -> Result<Reply, Refused>
    ensures replied { HasRead F.answers (λ file.
        IsImportReply file (heading_texts (given_texts maps.now) (given_texts keeps.now)) options name.now result)
        files.old files.new }
    ensures silent { HasRead F.answers (λ file.
        ImportsSilently file (heading_texts (given_texts maps.now) (given_texts keeps.now)) options name.now
        → warnings.new.items ≡ warnings.old.items) files.old files.new }
{
    let all = all_texts(alloc, maps, keeps)?;
    let texts = heading_texts(alloc, &[], &all)?;
    import_by(alloc, files, name, &texts, options, warnings)
}

/// The same with the texts HEADING=COLUMN of all columns.
fn import_by<F: FileReader>(
    alloc: Global,
    files: &mut F,
    name: &str,
    maps: &[&str],
    options: ImportOptions,
    warnings: &mut Vec<Warning>,
) -> Result<Reply, Refused>
    ensures replied { HasRead F.answers (λ file. IsImportReply file (given_texts maps.now) options name.now result) files.old files.new }
    ensures silent { HasRead F.answers (λ file. ImportsSilently file (given_texts maps.now) options name.now
        → warnings.new.items ≡ warnings.old.items) files.old files.new }
{
    let bytes = read_file(alloc, files, name)?;
    let mut refused = None;
    match import_watched(alloc, &*files, maps, options, &bytes, &mut refused) {
        Ok(imported) => {
            note_import(alloc, &imported, warnings);
            Ok(Reply::done(imported.text))
        }
        Err(fault) => {
            let evidence = evidence_of(alloc, bytes, &fault, refused);
            Err(Refused::with(import_refusal(&fault), evidence))
        }
    }
}
