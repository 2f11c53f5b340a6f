//! Chooses the hints for what a command read and refused.

use crate::checks::{tell_objection, tell_plan};
use crate::clocks::{tell_apart, tell_clock, tell_clocks};
use crate::differences::tell_difference;
use crate::faults::tell_table_fault;
use crate::files::{REFUSED_OUTPUT, UTF_16, nth, tell_trouble};
use crate::findings::{tell_changes, tell_findings};
use crate::hint::HintText;
use crate::imports::tell_rows;
use crate::keeping::{kept_line, tell_kept, tell_moved};
use crate::logs::tell_log_line;
use crate::mistakes::{tell_habits, tell_nearest_word};
use crate::periods::tell_millis;
use crate::plans::{tell_all_unfit, tell_fewer_buses, tell_groups, tell_half_period};
use crate::scripts::{tell_script_line, tell_words_line};
use crate::surveys::tell_survey;
use crate::whole_logs::{tell_close_words, tell_passed, tell_too_long};
use crate::words::{
    tell_data_text, tell_even_word, tell_filter, tell_label_text, tell_line_byte, tell_word_text,
};
use a429_arguments::command_forms::CommandForm;
use a429_arguments::forms::Verb;
use a429_arguments::options::OptionName;
use a429_arguments::requests::Asked;
use a429_console::answered::{Answered, Found};
use a429_console::hints::Hints;
use a429_console::hints::warnings::{FurtherCause, FurtherFault, Warning};
use a429_console::refusals::evidence::{
    Evidence, LineEvidence, LogEvidence, TableEvidence, TableLook,
};
use a429_console::refusals::{CommandRefusal, Refused};
use a429_equipment::Equipment;
use a429_table::FaultKind;
use a429_text::Sheet;
use std::alloc::Global;
use std::io;
use std::io::Write;

/// Hints in lines that begin with `a429: `.
#[derive(Clone, Copy)]
pub struct HintLines;

impl Hints for HintLines {
    fn tell<V: Write>(
        &self,
        alloc: Global,
        asked: &Asked,
        answered: &Answered,
        warnings: &[Warning],
        err: &mut V,
    ) -> io::Result<()> {
        let hint = HintText::new(alloc);
        for warning in warnings {
            tell_warning(asked, warning, &hint);
        }
        tell_answered(asked, answered, &hint);
        hint.put(err)?;
        err.flush()
    }

    fn tell_mistake<V: Write>(&self, alloc: Global, words: &[&str], err: &mut V) -> io::Result<()> {
        let hint = HintText::new(alloc);
        tell_nearest_word(words, &hint);
        tell_habits(words, &hint);
        hint.put(err)
    }
}

/// Says what to do about an answer.
fn tell_answered(asked: &Asked, answered: &Answered, hint: &HintText) {
    if let Some(refused) = answered.refused() {
        tell_refusal(asked, refused, hint);
    }
    match answered.found() {
        Found::Nothing => {}
        Found::Rows(rows) => tell_found(asked, rows, hint),
        Found::Objection { objection, text } => {
            hint.turn_to(text_name(asked));
            tell_objection(text, objection, hint);
        }
    }
}

/// Says what to do about what was found.
fn tell_found(asked: &Asked, found: &Sheet, hint: &HintText) {
    match asked.verb {
        Verb::Judge => {
            hint.turn_to(sent_name(asked));
            let aligned = asked.has(OptionName::Align);
            tell_clocks(asked.second, asked.unit(), aligned, found, hint);
        }
        Verb::Diff => {
            hint.turn_to(asked.second);
            tell_changes(&found.rows, hint);
        }
        Verb::Survey => {
            hint.turn_to(asked.first);
            tell_survey(asked.unit(), found, hint);
        }
        _ => {
            hint.turn_to(table_name(asked));
            tell_findings(&found.rows, hint);
        }
    }
}

/// How intervals look that have no period, and may be milliseconds.
const NO_PERIOD: &str = "1000 us, and none allows a period";

/// How intervals look that fill a bus, and may be milliseconds.
const FULL_BUS: &str = "5000 us, and one label takes a quarter of a bus or more";

/// Says what a warning is about.
fn tell_warning(asked: &Asked, warning: &Warning, hint: &HintText) {
    hint.turn_to(match warning {
        Warning::Further(fault) => nth(&asked.more, fault.number),
        Warning::Kept(_) | Warning::Moved(_) => asked.text(OptionName::Keep).unwrap_or(""),
        Warning::Clock(_) => sent_name(asked),
        Warning::Passed(lines) => log_name(asked, lines.log),
        _ => text_name(asked),
    });
    let maps = asked.texts(OptionName::Map);
    match warning {
        Warning::Further(fault) => tell_further_fault(asked, fault, hint),
        Warning::CloseWords(name) => tell_close_words(name.as_str(), asked.unit(), hint),
        Warning::ShortIntervals(group) => tell_millis(group.as_str(), NO_PERIOD, maps, hint),
        Warning::MillisGroup(group) => tell_millis(group.as_str(), FULL_BUS, maps, hint),
        Warning::Notes(count) => hint.line_one(
            "rows at the end without a label, which are passed over as notes: {}",
            *count,
        ),
        Warning::Kept(counts) => tell_kept(*counts, hint),
        Warning::Moved(output) => tell_moved(output, hint),
        Warning::Clock(clock) => tell_clock(asked.second, *clock, hint),
        Warning::Passed(lines) => tell_passed(*lines, hint),
    }
}

/// Says why a further table is refused: the same hint as for a first table, or in what its station differs.
fn tell_further_fault(asked: &Asked, fault: &FurtherFault, hint: &HintText) {
    match &fault.cause {
        FurtherCause::Fault(kind) => tell_further_table(asked, fault, *kind, hint),
        FurtherCause::Unfit => tell_unfit_of_table(&fault.table, hint),
        FurtherCause::TooManyBuses { group, needed } => {
            tell_fewer_buses(group.as_str(), *needed, hint);
        }
        FurtherCause::OtherStation { running, other } => {
            tell_difference(table_name(asked), running, other, hint);
        }
    }
}

/// Says what is wrong with a further table. Of a large one nothing is kept, and the hint names the command that says it.
fn tell_further_table(asked: &Asked, fault: &FurtherFault, kind: FaultKind, hint: &HintText) {
    if fault.table.document.is_none() {
        let name = nth(&asked.more, fault.number);
        return hint.line_one("a429 plan {..} says what is wrong", name);
    }
    tell_fault(asked, kind, &fault.table, hint);
}

/// Says what is wrong with what a command was asked for.
fn tell_refusal(asked: &Asked, refused: &Refused, hint: &HintText) {
    let refusal = refused.refusal();
    match refused.evidence() {
        Evidence::Nothing => tell_plain(asked, refusal, hint),
        Evidence::File(trouble) => {
            if let CommandRefusal::File(name) = refusal {
                tell_trouble(*trouble, name.as_str(), hint);
            }
        }
        Evidence::Table { table, is_second } => {
            hint.turn_to(if *is_second {
                asked.second
            } else {
                table_name(asked)
            });
            tell_of_table(asked, refusal, table, hint);
        }
        Evidence::Proposal(proposal) => tell_of_plan(asked, refusal, proposal.equipment(), hint),
        Evidence::Plan {
            objection,
            text,
            is_second,
        } => tell_plan(asked, objection, text, *is_second, hint),
        Evidence::Line(line) => tell_of_line(asked, line, None, hint),
        Evidence::Byte { line, byte } => tell_of_line(asked, line, Some(*byte), hint),
        Evidence::Log { line, log } => tell_of_log(asked, line, log, hint),
        Evidence::Rows(rows) => {
            hint.turn_to(text_name(asked));
            tell_rows(asked, refusal, rows, hint);
        }
        Evidence::Threads(threads) => tell_of_run(asked, refusal, *threads, hint),
    }
}

/// Says what is wrong, if the refusal says all.
fn tell_plain(asked: &Asked, refusal: &CommandRefusal, hint: &HintText) {
    match refusal {
        CommandRefusal::TooMuch => tell_of_length(asked, hint),
        CommandRefusal::PlanLine { line, kind } => {
            hint.turn_to(asked.text(OptionName::Keep).unwrap_or(""));
            hint.turn_to_line(*line);
            hint.say_line(kept_line(*kind));
        }
        CommandRefusal::Apart => {
            hint.turn_to(sent_name(asked));
            tell_apart(asked.second, asked.more.is_empty(), hint);
        }
        CommandRefusal::WordText => tell_word_text(asked.first, hint),
        CommandRefusal::Parity => tell_even_word(asked.first, hint),
        CommandRefusal::LabelText => tell_label_text(asked.first, hint),
        CommandRefusal::DataText => tell_data_text(asked, hint),
        CommandRefusal::Filter(number) => tell_filter(*number, nth(&asked.more, *number), hint),
        _ => {}
    }
}

/// Says what is wrong with this byte of a line file, or with a line of a script or of a file of words.
fn tell_of_line(asked: &Asked, line: &LineEvidence, byte: Option<u8>, hint: &HintText) {
    hint.turn_to(text_name(asked));
    hint.turn_to_line(line.number);
    match byte {
        Some(byte) => tell_line_byte(line, byte, hint),
        None if asked.verb == Verb::Live => tell_words_line(line, hint),
        None => tell_script_line(line, hint),
    }
}

/// Says what is wrong with a line of a log.
fn tell_of_log(asked: &Asked, line: &LineEvidence, log: &LogEvidence, hint: &HintText) {
    hint.turn_to(log_name(asked, log.number));
    hint.turn_to_line(line.number);
    tell_log_line(line, log, asked.texts(OptionName::Channel), hint);
}

/// Says that a log is too long, or that an image is too high.
fn tell_of_length(asked: &Asked, hint: &HintText) {
    match asked.verb {
        Verb::Simulate => {
            hint.turn_to(text_name(asked));
            tell_too_long(asked.long_number(OptionName::Until), hint);
        }
        Verb::Draw => {
            hint.turn_to(table_name(asked));
            hint.say_line(
                "the image would be higher than 32767 pixels, the limit of many viewers: draw fewer slots (--slots), wider rows (--width 256), or one group (--group)",
            );
        }
        _ => {}
    }
}

/// Says what the plan of a table does not have.
fn tell_of_plan(asked: &Asked, refusal: &CommandRefusal, equipment: &Equipment, hint: &HintText) {
    match refusal {
        CommandRefusal::Group(_) => {
            hint.turn_to(table_name(asked));
            tell_groups(equipment.groups(), hint);
        }
        CommandRefusal::Tolerance => {
            hint.turn_to(table_name(asked));
            tell_half_period(equipment, hint);
        }
        _ => tell_plain(asked, refusal, hint),
    }
}

/// Says how many threads a run needs, if they could not be started.
fn tell_of_run(asked: &Asked, refusal: &CommandRefusal, threads: usize, hint: &HintText) {
    if let CommandRefusal::Join = refusal {
        hint.turn_to(table_name(asked));
        hint.line_one(
            "threads could not be started: this station needs {}, one for each receiver and each group",
            threads,
        );
    }
}

/// Says what is wrong with a table or its plan.
fn tell_of_table(asked: &Asked, refusal: &CommandRefusal, table: &TableEvidence, hint: &HintText) {
    match refusal {
        CommandRefusal::Table(kind, _) => tell_fault(asked, *kind, table, hint),
        CommandRefusal::Unfit { .. } => tell_unfit_of_table(table, hint),
        CommandRefusal::TooManyBuses { group, needed } => {
            tell_fewer_buses(group.as_str(), *needed, hint);
        }
        _ => {}
    }
}

/// Says what is wrong with a table that has a fault of this kind.
fn tell_fault(asked: &Asked, kind: FaultKind, table: &TableEvidence, hint: &HintText) {
    if kind == FaultKind::NotToml {
        tell_order(asked, table.looks, hint);
    }
    if let Some(document) = &table.document {
        tell_table_fault(document, kind, hint);
    }
}

/// Says which outputs of a table have no period.
fn tell_unfit_of_table(table: &TableEvidence, hint: &HintText) {
    if let Some(equipment) = &table.equipment {
        tell_all_unfit(equipment, hint);
    }
}

/// Says the order of the arguments, if a table looks like another file.
fn tell_order(asked: &Asked, looks: TableLook, hint: &HintText) {
    let looks = match looks {
        TableLook::PlanText => "the text of a plan",
        TableLook::Script => "a script",
        TableLook::Log => "a log",
        TableLook::Rows => return hint.say_line(
            "these are rows for import; write a429 import FILE >table.toml, and name table.toml here",
        ),
        TableLook::Refusal => return hint.say_line(REFUSED_OUTPUT),
        TableLook::Utf16 => return hint.say_line(UTF_16),
        TableLook::SingleBrackets => return hint.say_line(
            "each row begins with two brackets on each side: write [[receiver]], [[source]], [[group]] and [[group.output]]",
        ),
        TableLook::CurlyQuotes => return hint.say_line(
            "a text has typographic quotes: write plain ones, for example name = \"adc\"",
        ),
        TableLook::Other => return,
    };
    hint.begin(": ");
    hint.say_one("this looks like {}; write a429 ", looks);
    say_names(&asked.verb.form(), hint);
    hint.end("");
}

/// Says the name of a command, and its arguments without options.
fn say_names(form: &CommandForm, hint: &HintText) {
    hint.say_two("{} {}", form.name, form.first);
    if let Some(second) = form.second {
        hint.say_one(" {}", second);
    }
    if let Some(number) = form.number {
        hint.say_one(" {}", number);
    }
    if let Some(more) = form.more {
        hint.say_one(" [{}..]", more);
    }
}

/// Whether the first argument of a command is a table.
fn is_of_table(verb: Verb) -> bool {
    verb.form().first == "TABLE"
}

/// The name of the table: the first argument, or that of `survey --table`. Empty if there is none.
fn table_name<'a>(asked: &Asked<'a>) -> &'a str {
    if is_of_table(asked.verb) {
        asked.first
    } else {
        asked.text(OptionName::Table).unwrap_or("")
    }
}

/// The name of the file that a command reads with a table, or instead of one; empty if there is none.
fn text_name<'a>(asked: &Asked<'a>) -> &'a str {
    if is_of_table(asked.verb) {
        asked.second
    } else {
        asked.first
    }
}

/// The name of the log with this number, counted from 0.
fn log_name<'a>(asked: &Asked<'a>, number: usize) -> &'a str {
    let heard = asked.texts(OptionName::In);
    if number == 0 {
        text_name(asked)
    } else if asked.verb != Verb::Judge {
        nth(&asked.more, number)
    } else if number <= heard.len() {
        nth(heard, number)
    } else {
        nth(&asked.more, number - heard.len())
    }
}

/// The name of the first log of what a box sent.
fn sent_name<'a>(asked: &Asked<'a>) -> &'a str {
    asked.more.first().unwrap_or(&asked.second)
}
