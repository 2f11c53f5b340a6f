//! Lines of what is reported of a line.
ghost use Rattle.std.specs.Prelude.{◌≡◌, ◌<◌, ◌≤◌, ◌++◌, ◌∷◌, [], IfOk, IsTrue, OnOk, OnErr, length};
ghost use Rattle.std.specs.Fmt.{decimal};
ghost use Rattle.std.specs.Io.KnownBytes.{Appends};
ghost use Rattle.a429_text.specs.declared.sheets.SheetForm.TheVariants.{Csv, Json};
ghost use Rattle.a429_word.specs.Hexadecimal.{hex};
ghost use Rattle.std.specs.Option.{option_to_list};
ghost use Rattle.a429_word.specs.Written.{Gains};
ghost use Rattle.a429_cli.specs.LineReports.{PrintsReport, ending_in, found_in, found_line, found_row, printed, received, refused_in, rest_in, rest_line, rows_head};
ghost use Rattle.a429_console.specs.Outputs.{CountsFault, status_of};

use a429_console::output::endings::{finish, put_answer};
use a429_console::output::{Output, OutputFault};
use a429_filter::FilterSet;
use a429_line::Found;
use a429_replay::put_if_full;
use a429_text::SheetForm;
use a429_text::from_end::{push_hex, push_number, put_decimal, put_hex, put_text};
use a429_word::Word;
use std::alloc::AllocError;

/// How many bytes the room has in which a row is written. The longest row has fewer.
const ROOM: usize = 96;

/// Appends a raw word between two short texts. Error: an allocation failed; then nothing is appended.
fn push_between(text: &mut Vec<u8>, before: &[u8], raw: u32, after: &[u8]) -> Result<(), AllocError>
    requires { (length before.now ≤ 40) × (length after.now ≤ 24) }
    ensures line { Gains result text.old.items text.new.items (before.now ++ (hex raw ++ after.now)) }
    ensures kept { OnErr result (text.new.items ≡ text.old.items) }
{
    let mut room = [0u8; ROOM];
    let at = put_text(&mut room, ROOM, after);
    let at = put_hex(&mut room, at, raw);
    let at = put_text(&mut room, at, before);
    text.extend_from_slice(&room[at..])
}

/// Appends a number between two short texts. Error: an allocation failed; then nothing is appended.
fn push_count(text: &mut Vec<u8>, before: &[u8], count: u32, after: &[u8]) -> Result<(), AllocError>
    requires { (length before.now ≤ 48) × (length after.now ≤ 8) }
    ensures line { Gains result text.old.items text.new.items (before.now ++ (decimal count ++ after.now)) }
    ensures kept { OnErr result (text.new.items ≡ text.old.items) }
{
    let mut room = [0u8; ROOM];
    let at = put_text(&mut room, ROOM, after);
    let at = put_decimal(&mut room, at, u64::from(count));
    let at = put_text(&mut room, at, before);
    text.extend_from_slice(&room[at..])
}

/// Appends the line of a report. Error: an allocation failed; then nothing is appended.
fn push_line(text: &mut Vec<u8>, found: Found) -> Result<(), AllocError>
    ensures line { Gains result text.old.items text.new.items (found_line found) }
    ensures kept { OnErr result (text.new.items ≡ text.old.items) }
{
    match found {
        Found::Word(word) => push_hex(text, b"word ", word.raw()),
        Found::Parity(raw) => push_hex(text, b"parity ", raw),
        Found::Short(bits) => push_number(text, b"short ", u64::from(bits)),
        Found::Long => text.extend_from_slice(b"long\n"),
        Found::Gap(nulls) => push_number(text, b"gap ", u64::from(nulls)),
    }
}

/// Appends the row of a report, with commas. Error: an allocation failed; then nothing is appended.
fn push_csv(text: &mut Vec<u8>, found: Found) -> Result<(), AllocError>
    ensures line { Gains result text.old.items text.new.items (found_row Csv found) }
    ensures kept { OnErr result (text.new.items ≡ text.old.items) }
{
    match found {
        Found::Word(word) => push_between(text, b"word,", word.raw(), b",\n"),
        Found::Parity(raw) => push_between(text, b"parity,", raw, b",\n"),
        Found::Short(bits) => push_count(text, b"short,,", bits, b"\n"),
        Found::Long => text.extend_from_slice(b"long,,\n"),
        Found::Gap(nulls) => push_count(text, b"gap,,", nulls, b"\n"),
    }
}

/// Appends the row of a report, as an object before another. Error: an allocation failed; then nothing is appended.
fn push_json(text: &mut Vec<u8>, found: Found) -> Result<(), AllocError>
    ensures line { Gains result text.old.items text.new.items (found_row Json found) }
    ensures kept { OnErr result (text.new.items ≡ text.old.items) }
{
    let after: &[u8] = b"\",\"count\":null},\n";
    match found {
        Found::Word(word) => {
            push_between(text, b"{\"report\":\"word\",\"word\":\"", word.raw(), after)
        }
        Found::Parity(raw) => {
            push_between(text, b"{\"report\":\"parity\",\"word\":\"", raw, after)
        }
        Found::Short(bits) => push_count(
            text,
            b"{\"report\":\"short\",\"word\":null,\"count\":",
            bits,
            b"},\n",
        ),
        Found::Long => {
            text.extend_from_slice(b"{\"report\":\"long\",\"word\":null,\"count\":null},\n")
        }
        Found::Gap(nulls) => push_count(
            text,
            b"{\"report\":\"gap\",\"word\":null,\"count\":",
            nulls,
            b"},\n",
        ),
    }
}

/// Appends the line or the row of a report. Error: an allocation failed; then nothing is appended.
pub fn push_found(text: &mut Vec<u8>, form: SheetForm, found: Found) -> Result<(), AllocError>
    ensures line { Gains result text.old.items text.new.items (found_in form found) }
    ensures kept { OnErr result (text.new.items ≡ text.old.items) }
{
    match form {
        SheetForm::Columns => push_line(text, found),
        SheetForm::Csv => push_csv(text, found),
        SheetForm::Json => push_json(text, found),
    }
}

/// The word of a report, if it has odd parity and its label passes.
fn received_word(filters: &FilterSet, found: Found) -> Option<Word>
    ensures { option_to_list result ≡ received filters.now (found ∷ []) }
{
    let word = match found {
        Found::Word(word) => word,
        Found::Parity(raw) => Word::from_raw(raw).ok()?,
        Found::Short(_) | Found::Long | Found::Gap(_) => return None,
    };
    if filters.passes(word.label()) {
        Some(word)
    } else {
        None
    }
}

/// Appends what is printed of a report: its line, or with a list of filters the line of a word that passes.
/// If an allocation fails, nothing is appended.
fn push_report(
    lines: &mut Vec<u8>,
    form: SheetForm,
    filters: &FilterSet,
    found: Found,
) -> Result<(), AllocError>
    ensures line { OnOk result (lines.new.items ≡ lines.old.items ++ printed form filters.now (found ∷ [])) }
    ensures kept { OnErr result (lines.new.items ≡ lines.old.items) }
{
    if filters.list().is_none() {
        return push_found(lines, form, found);
    }
    match received_word(filters, found) {
        Some(word) => push_found(lines, form, Found::Word(word)),
        None => Ok(()),
    }
}

/// Appends what is printed of a report. The lines are put out when they have become many, and those that are left are in
/// `lines`. The result is whether memory sufficed; if it did not, nothing is appended. Error: the output failed.
pub fn print_report<O: Output>(
    form: SheetForm,
    filters: &FilterSet,
    found: Found,
    lines: &mut Vec<u8>,
    out: &mut O,
) -> Result<bool, OutputFault>
    ensures printed { PrintsReport O.contents form filters.now found out.old out.new lines.old lines.new result }
    ensures few { OnOk result (length lines.old.items < 65536 → length lines.new.items < 65536) }
    ensures faults { CountsFault result (O.failures out.old) (O.failures out.new) }
{
    let Ok(()) = push_report(lines, form, filters, found) else {
        return Ok(false);
    };
    put_if_full(lines, out)?;
    Ok(true)
}

/// Appends the line of a rest of this number of bits, unless there is no rest, or there is a list of filters. Error: an
/// allocation failed; then nothing is appended.
fn push_rest_line(lines: &mut Vec<u8>, filters: &FilterSet, rest: u32) -> Result<(), AllocError>
    ensures line { OnOk result (lines.new.items ≡ lines.old.items ++ rest_line filters.now rest) }
    ensures kept { OnErr result (lines.new.items ≡ lines.old.items) }
{
    if rest > 0 && filters.list().is_none() {
        return push_number(lines, b"rest ", u64::from(rest));
    }
    Ok(())
}

/// Appends the line of a rest of this number of bits, or the last row, which always has it. Error: an allocation failed;
/// then nothing is appended.
pub fn push_rest(
    lines: &mut Vec<u8>,
    form: SheetForm,
    filters: &FilterSet,
    rest: u32,
) -> Result<(), AllocError>
    ensures line { OnOk result (lines.new.items ≡ lines.old.items ++ rest_in form filters.now rest) }
    ensures kept { OnErr result (lines.new.items ≡ lines.old.items) }
{
    match form {
        SheetForm::Columns => push_rest_line(lines, filters, rest),
        SheetForm::Csv => push_count(lines, b"rest,,", rest, b"\n"),
        SheetForm::Json => push_count(
            lines,
            b"{\"report\":\"rest\",\"word\":null,\"count\":",
            rest,
            b"}\n]\n",
        ),
    }
}

/// Puts what comes before the reports. Error: the output failed.
pub fn put_head<O: Output>(form: SheetForm, out: &mut O) -> Result<(), OutputFault>
    ensures put { OnOk result (Appends (O.contents out.old) (O.contents out.new) (rows_head form)) }
    ensures faults { CountsFault result (O.failures out.old) (O.failures out.new) }
{
    match form {
        SheetForm::Columns => Ok(()),
        SheetForm::Csv => out.put(b"report,word,count\n"),
        SheetForm::Json => out.put(b"[\n"),
    }
}

/// Puts the rows of an array that are left, and a last one that says that an allocation failed, and ends the array. The
/// status is 1. Error: the output failed.
fn refuse_in_array<O: Output>(left: &[u8], out: &mut O) -> Result<u8, OutputFault>
    ensures status { IfOk result (λ status. status ≡ 1) }
    ensures put { OnOk result (Appends (O.contents out.old) (O.contents out.new) (left.now ++ refused_in Json)) }
    ensures flushed { OnOk result (IsTrue (O.is_flushed out.new)) }
    ensures faults { CountsFault result (O.failures out.old) (O.failures out.new) }
{
    out.put(left)?;
    put_answer(
        b"{\"report\":\"refused memory\",\"word\":null,\"count\":null}\n]\n",
        1,
        out,
    )
}

/// Puts the lines or rows that are left, and after them, if memory did not suffice for all, what says so. The status is
/// 0, or 1 if memory did not suffice. Error: the output failed.
pub fn finish_in<O: Output>(
    form: SheetForm,
    left: &[u8],
    sufficed: bool,
    out: &mut O,
) -> Result<u8, OutputFault>
    ensures status { IfOk result (λ status. status ≡ status_of sufficed) }
    ensures put { OnOk result (Appends (O.contents out.old) (O.contents out.new) (left.now ++ ending_in form sufficed)) }
    ensures flushed { OnOk result (IsTrue (O.is_flushed out.new)) }
    ensures faults { CountsFault result (O.failures out.old) (O.failures out.new) }
{
    if sufficed {
        return finish(left, true, out);
    }
    match form {
        SheetForm::Columns | SheetForm::Csv => finish(left, false, out),
        SheetForm::Json => refuse_in_array(left, out),
    }
}
