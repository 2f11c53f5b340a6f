//! The command `lines`.
ghost use Rattle.std.specs.Prelude.{◌≡◌, ◌==◌, ◌||◌, ◌≤◌, ◌++◌, ◌∷◌, [], Some, IfOk, IsTrue, MatchResult, is_none, length, not, OnOk};
ghost use Rattle.std.specs.Io.KnownBytes.{append_known};
ghost use Rattle.a429_filter.specs.Filters.{filters_of};
ghost use Rattle.a429_filter.specs.FilterTexts.{filter_of, filter_read};
ghost use Rattle.a429_arguments.specs.Texts.{texts_of};
ghost use Rattle.a429_cli.specs.LineReplies.{AreFiltersOf, IsFilterRefusal, IsLinePrinted, IsLineReading, IsLineTold, HasToldLines};
ghost use Rattle.a429_console.specs.Readings.{HasRead};
ghost use Rattle.a429_console.specs.Outputs.{CountsFault, IsPut};

pub mod reports;

use crate::lines::reports::{finish_in, print_report, push_rest, put_head};
use a429_console::answered::{Answered, plain_answer};
use a429_console::files::FileReader;
use a429_console::files::reading::read_file;
use a429_console::output::{Output, OutputFault};
use a429_console::refusals::evidence::Evidence;
use a429_console::refusals::{CommandRefusal, Refused, refuse};
use a429_filter::{Filter, FilterSet};
use a429_line::{LineReader, first_bad_byte};
use a429_text::SheetForm;
use std::alloc::Global;

/// The bytes of a line file, and the filters of its receiver.
#[derive(Drop)]
struct LineInput {
    bytes: Vec<u8>,
    filters: FilterSet,
}

/// Adds the filter of a text at the end of the list. Whether the text has one, and the list room for it.
#[tactic(auto, unfolding(a429_filter::specs::FilterTexts::filter_of))]
fn add_filter(filters: &mut FilterSet, text: &str) -> bool
    ensures added { result ≡ not (length (filters_of filters.old) == 32 || is_none (filter_read text.now)) }
    ensures list { IsTrue result → filters.new ≡ Some (filters_of filters.old ++ filter_of text.now ∷ []) }
{
    match Filter::parse(text) {
        Ok(filter) => filters.add(filter).is_ok(),
        Err(_) => false,
    }
}

/// The filters of texts. Without texts there is no list. Error: the first text that is not a filter, or the 33rd.
fn read_filters(texts: &[&str]) -> Result<FilterSet, CommandRefusal>
    ensures { MatchResult result (AreFiltersOf (texts_of texts.now)) (IsFilterRefusal (texts_of texts.now)) }
{
    let mut filters = FilterSet::all();
    for (place, text) in texts.iter().enumerate() {
        if !add_filter(&mut filters, text) {
            return Err(CommandRefusal::Filter(place + 1));
        }
    }
    Ok(filters)
}

/// Reads a line file, and the filters of its receiver. Error: the file, then a filter, then a byte.
fn read_line<F: FileReader>(
    alloc: Global,
    files: &mut F,
    name: &str,
    filters: &[&str],
) -> Result<LineInput, Refused>
    ensures { HasRead F.answers (λ file. IsLineReading file name.now (texts_of filters.now) result) files.old files.new }
{
    let bytes = read_file(alloc, files, name)?;
    let filters = read_filters(filters)?;
    match first_bad_byte(&bytes) {
        Some(place) => {
            let evidence = Evidence::of_byte(alloc, &bytes, place);
            Err(Refused::with(CommandRefusal::LineByte(place), evidence))
        }
        None => Ok(LineInput { bytes, filters }),
    }
}

/// Appends what is printed of a line's reports, one after another, and of its rest. The lines are put out when they
/// have become many, and those that are left are in `lines`. The result is whether memory sufficed for all.
fn print_line<O: Output>(
    line: &LineInput,
    form: SheetForm,
    lines: &mut Vec<u8>,
    out: &mut O,
) -> Result<bool, OutputFault>
    ensures printed { IfOk result (IsPut (IsLinePrinted form line.now)
        (append_known (O.contents out.old) lines.old.items) (append_known (O.contents out.new) lines.new.items)) }
    ensures faults { CountsFault result (O.failures out.old) (O.failures out.new) }
{
    let bytes = line.bytes.as_slice();
    let mut reader = LineReader::new();
    let mut at = 0;
    while let Some(found) = reader.next(bytes, &mut at) {
        if !print_report(form, &line.filters, found, lines, out)? {
            return Ok(false);
        }
    }
    let Ok(()) = push_rest(lines, form, &line.filters, reader.rest()) else {
        return Ok(false);
    };
    Ok(true)
}

/// Puts what is printed of a line. If an allocation fails before the end, the lines so far end with `refused memory`, or
/// those of an array with a row that says so.
fn tell_line<O: Output>(
    alloc: Global,
    line: &LineInput,
    form: SheetForm,
    out: &mut O,
) -> Result<u8, OutputFault>
    ensures told { IfOk result (IsPut (IsLineTold form line.now) (O.contents out.old) (O.contents out.new)) }
    ensures status { IfOk result (λ status. status ≤ 1) }
    ensures flushed { OnOk result (IsTrue (O.is_flushed out.new)) }
    ensures faults { CountsFault result (O.failures out.old) (O.failures out.new) }
{
    put_head(form, out)?;
    let mut lines = Vec::new(alloc);
    let sufficed = print_line(line, form, &mut lines, out)?;
    finish_in(form, &lines, sufficed, out)
}

/// Prints what a reader reports of the line in a file: one line for each report, and one for a rest that has none. With
/// filters, at most 32, there is one line for each word that a socket on the line gives. With `--csv` or `--json` a row is in
/// place of each line, and the last row has the rest. A refusal is one line instead.
/// It is `file` if the file cannot be read, and `filter` if a filter is not `LLL/MMM` or is the 33rd. It is `line byte`
/// if a byte is neither a symbol nor a space or a line feed. The status is 0, or 1 after a refusal, or if an allocation
/// fails after the first lines. Error: the output failed.
pub fn tell_lines<F: FileReader, O: Output>(
    alloc: Global,
    files: &mut F,
    name: &str,
    filters: &[&str],
    form: SheetForm,
    out: &mut O,
) -> Result<Answered, OutputFault>
    ensures told { HasToldLines F.answers O.contents form name.now (texts_of filters.now) files.old files.new out.old out.new result }
    ensures status { IfOk result (λ status. status ≤ 1) }
    ensures flushed { OnOk result (IsTrue (O.is_flushed out.new)) }
    ensures faults { CountsFault result (O.failures out.old) (O.failures out.new) }
{
    match read_line(alloc, files, name, filters) {
        Ok(line) => plain_answer(tell_line(alloc, &line, form, out)),
        Err(refusal) => refuse(alloc, refusal, out),
    }
}
