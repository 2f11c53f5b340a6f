//! Which answers a replay prints, and in which form.
ghost use Rattle.std.specs.Prelude.{◌≡◌, ◌++◌, MatchResult, Some, codes, drop};
ghost use Rattle.std.specs.Fmt.{decimal};
ghost use Rattle.a429_console.specs.RefusalText.{OrMemory};
ghost use Rattle.a429_replay.specs.Views.{IsNoGroup, answer_row, arrival_fields, asked_view, cell_fields, end_fields, event_fields, is_sent, receiver_field, sent_fields, source_field, view_of, word_field};

use crate::answers::refusal_reason;
use crate::names::Names;
use crate::script::ScriptEvent;
use a429_arguments::options::OptionName;
use a429_arguments::requests::Asked;
use a429_console::refusals::Refused;
use a429_console::refusals::tables::no_group;
use a429_core::Answer;
use a429_text::Text;
use a429_word::Word;
use std::alloc::Global;

/// What a replay is asked to print.
#[derive(Clone, Copy)]
pub struct ReplayForm<'a> {
    /// Only the answers of cells that are sent.
    pub quiet: bool,
    /// Only the answers for the group of this name.
    pub only: Option<&'a str>,
    /// As comma-separated values.
    pub commas: bool,
}

impl<'a> ReplayForm<'a> {
    ghost use Rattle.std.specs.Prelude.{◌≡◌};
    ghost use Rattle.a429_arguments.specs.Requests.{asked_of};
    ghost use Rattle.a429_replay.specs.Views.{asked_view, view_given};

    /// What a request asks for.
    pub fn of(asked: &Asked<'a>) -> ReplayForm<'a>
        ensures { asked_view result ≡ view_given (asked_of asked.now).given }
    {
        ReplayForm {
            quiet: asked.has(OptionName::Quiet),
            only: asked.text(OptionName::Only),
            commas: asked.has(OptionName::Csv),
        }
    }
}

/// What a replay prints.
#[derive(Clone, Copy)]
pub struct View {
    /// Only the answers of cells that are sent.
    pub quiet: bool,
    /// Only the answers for the group of this number.
    pub only: Option<u8>,
    /// Rows with commas.
    pub commas: bool,
}

impl View {
    ghost use Rattle.std.specs.Prelude.{◌≡◌};
    ghost use Rattle.a429_replay.specs.Views.{is_for, is_of, is_of_all, shows};

    /// Whether the answers for a group are printed.
    #[inline(always)]
    fn is_of(self, group: u8) -> bool
        ensures { result ≡ is_of self.only group }
    {
        match self.only {
            None => true,
            Some(only) => group == only,
        }
    }

    /// Whether the answers that are for no group are printed.
    #[inline(always)]
    fn is_of_all(self) -> bool
        ensures { result ≡ is_of_all self.only }
    {
        self.only.is_none()
    }

    /// Whether the answers to an event are printed, by the group that it is for.
    #[inline(always)]
    fn is_for(self, event: ScriptEvent) -> bool
        ensures { result ≡ is_for self.only event }
    {
        match event {
            ScriptEvent::Cell(group) | ScriptEvent::Frame(group) => self.is_of(group),
            ScriptEvent::Arrive(_, _) | ScriptEvent::Publish(_) => self.is_of_all(),
        }
    }

    /// Whether the answer to an event is printed, which is or is not that of a cell that is sent.
    #[inline(always)]
    pub fn shows(self, event: ScriptEvent, sent: bool) -> bool
        ensures { result ≡ shows self event sent }
    {
        self.is_for(event) && (sent || !self.quiet)
    }
}

/// What a form asks for, of a station with these names. Error: no group has the name that is asked for. `Memory` if an
/// allocation fails.
pub fn view_of(alloc: Global, names: &Names, form: &ReplayForm<'_>) -> Result<View, Refused>
    ensures { MatchResult result (λ view. view_of names.now (asked_view form.now) ≡ Some view)
        (OrMemory (IsNoGroup names.now (asked_view form.now))) }
{
    let quiet = form.quiet;
    let commas = form.commas;
    let Some(name) = form.only else {
        return Ok(View {
            quiet,
            only: None,
            commas,
        });
    };
    match names.group(name.as_bytes()) {
        Some(group) => Ok(View {
            quiet,
            only: Some(group),
            commas,
        }),
        None => Err(Refused::plain(no_group(alloc, name))),
    }
}

/// Whether an answer is that of a cell that is sent.
#[inline(always)]
pub fn is_sent(answer: &Answer) -> bool
    ensures { result ≡ is_sent answer.now }
{
    match answer {
        Answer::Sent { .. } => true,
        _ => false,
    }
}

/// Writes what an event of a group is, and the name of the group.
fn put_for_group(text: &mut Text, what: &str, name: &[u8])
    ensures { text.new ≡ text.old ++ (what.now ++ (name.now ++ codes ",")) }
{
    text.put(what);
    text.put_bytes(name);
    text.put(",");
}

/// Writes what an event is, and the group that it is for.
fn put_event(text: &mut Text, names: &Names, event: ScriptEvent)
    ensures { text.new ≡ text.old ++ event_fields names.now event }
{
    match event {
        ScriptEvent::Arrive(_, _) => text.put("arrive,,"),
        ScriptEvent::Cell(group) => {
            put_for_group(text, "cell,", names.group_name(usize::from(group)))
        }
        ScriptEvent::Frame(group) => {
            put_for_group(text, "frame,", names.group_name(usize::from(group)))
        }
        ScriptEvent::Publish(_) => text.put("publish,,"),
    }
}

/// Writes the word of a cell, if there is one.
fn put_word(text: &mut Text, word: &Option<Word>)
    ensures { text.new ≡ text.old ++ word_field word.now }
{
    if let Some(word) = word {
        text.put_hex(word.raw());
    }
}

/// Writes the bus, the slot and the word of a cell.
fn put_cell(text: &mut Text, bus: u32, slot: u64, word: &Option<Word>)
    ensures { text.new ≡ text.old ++ sent_fields bus slot word.now }
{
    text.put_number(u64::from(bus));
    text.put(",");
    text.put_number(slot);
    text.put(",");
    put_word(text, word);
    text.put(",");
}

/// Writes the word that comes in, if one does.
fn put_arrival(text: &mut Text, event: ScriptEvent)
    ensures { text.new ≡ text.old ++ arrival_fields event }
{
    match event {
        ScriptEvent::Arrive(_, raw) => {
            text.put(",,");
            text.put_hex(raw);
            text.put(",");
        }
        _ => text.put(",,,"),
    }
}

/// Writes the bus, the slot and the word of an answer.
fn put_cell_fields(text: &mut Text, event: ScriptEvent, answer: &Answer)
    ensures { text.new ≡ text.old ++ cell_fields event answer.now }
{
    match answer {
        Answer::Sent { bus, slot, word } => put_cell(text, *bus, *slot, word),
        _ => put_arrival(text, event),
    }
}

/// The name of the source that accepts a word; empty if none does.
fn source_field<'a>(names: &'a Names, answer: &Answer) -> &'a [u8]
    ensures { result.now ≡ source_field names.now answer.now }
{
    match answer {
        Answer::Accepted { source } => names.source_name(*source),
        _ => b"",
    }
}

/// The name of the receiver at which a word comes in; empty if none does.
fn receiver_field<'a>(names: &'a Names, event: ScriptEvent) -> &'a [u8]
    ensures { result.now ≡ receiver_field names.now event }
{
    match event {
        ScriptEvent::Arrive(receiver, _) => names.receiver_name(usize::from(receiver)),
        _ => b"",
    }
}

/// Writes the source and the receiver of a word that comes in.
fn put_names(text: &mut Text, source: &[u8], receiver: &[u8])
    ensures { text.new ≡ text.old ++ (source.now ++ (codes "," ++ (receiver.now ++ codes ","))) }
{
    text.put_bytes(source);
    text.put(",");
    text.put_bytes(receiver);
    text.put(",");
}

/// Writes the number of a plan, and the end of the row.
fn put_plan(text: &mut Text, plan: u64)
    ensures { text.new ≡ text.old ++ (decimal plan ++ codes ",\n") }
{
    text.put_number(plan);
    text.put(",\n");
}

/// Writes why an event is refused, and the end of the row.
fn put_reason(text: &mut Text, reason: &[u8])
    ensures { text.new ≡ text.old ++ (codes "," ++ (reason.now ++ codes "\n")) }
{
    text.put(",");
    text.put_bytes(reason);
    text.put("\n");
}

/// Writes the number of a plan and why an event is refused, and the end of the row.
fn put_end(text: &mut Text, answer: &Answer)
    ensures { text.new ≡ text.old ++ end_fields answer.now }
{
    match answer {
        Answer::Changed { plan } | Answer::Published { plan } => put_plan(text, *plan),
        Answer::Refused(why) => put_reason(text, refusal_reason(*why)),
        _ => text.put(",\n"),
    }
}

/// Writes the answer to an event as a row.
pub fn put_row(text: &mut Text, names: &Names, event: ScriptEvent, answer: &Answer)
    ensures { text.new ≡ text.old ++ answer_row names.now event answer.now }
{
    put_event(text, names, event);
    put_cell_fields(text, event, answer);
    put_names(
        text,
        source_field(names, answer),
        receiver_field(names, event),
    );
    put_end(text, answer);
}

/// What follows `refused ` in the line of a refusal.
fn reason_of(line: &[u8]) -> &[u8]
    ensures { result.now ≡ drop 8 line.now }
{
    if line.len() < 8 { &[] } else { &line[8..] }
}

/// Writes the refusal of a table that was to be published as a row, by its line without the line feed.
pub fn put_refusal_row(text: &mut Text, line: &[u8])
    ensures { text.new ≡ text.old ++ (codes "publish,,,,,,,," ++ (drop 8 line.now ++ codes "\n")) }
{
    text.put("publish,,,,,,,,");
    text.put_bytes(reason_of(line));
    text.put("\n");
}
