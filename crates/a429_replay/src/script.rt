//! Scripts of events, one a line.
ghost use Rattle.std.specs.Prelude.{◌≡◌, ℕ, IfOk, IfSome};
ghost use Rattle.a429_replay.specs.Script.{arrive_event, line_event, publish_event};
ghost use Rattle.a429_replay.specs.Kept.{CanBeKept, ReadsScript, TakesAllTables};

use crate::kept::KeptEvent;
use crate::names::Names;
use crate::reading::read_events;
use a429_console::files::lines::{LineForm, LinesFault};
use a429_console::refusals::evidence::Evidence;
use a429_console::refusals::{CommandRefusal, Refused};
use a429_text::cut::cut_at;
use a429_word::{decimal_number, raw_word};
use std::alloc::Global;

/// An event of a script. Receivers and groups are numbered from 0 in table order, the further tables of the
/// command line from 1.
#[derive(Clone, Copy)]
pub enum ScriptEvent {
    Arrive(u8, u32),
    Cell(u8),
    Frame(u8),
    Publish(usize),
}

fn arrive(names: &Names, words: &[u8]) -> Option<ScriptEvent>
    ensures event { result ≡ arrive_event names.now words.now }
    ensures fits { (further : ℕ) → IfSome result (CanBeKept further) }
{
    let (receiver, raw) = cut_at(words, b' ')?;
    let receiver = names.receiver(receiver)?;
    Some(ScriptEvent::Arrive(receiver, raw_word(raw)?))
}

/// The publication of one of this number of further tables. `None` if the text is the number of none of them.
fn publish(further: usize, number: &[u8]) -> Option<ScriptEvent>
    ensures event { result ≡ publish_event further number.now }
    ensures fits { IfSome result (CanBeKept further) }
{
    let number = decimal_number(number)?;
    if number == 0 || number > further as u64 {
        return None;
    }
    Some(ScriptEvent::Publish(number as usize))
}

/// The event of a line, which is given without its line feed.
#[tactic(auto, unfolding(crate::specs::Script::line_event))]
fn read_line(names: &Names, further: usize, line: &[u8]) -> Option<ScriptEvent>
    ensures event { result ≡ line_event names.now further line.now }
    ensures fits { IfSome result (CanBeKept further) }
{
    let (verb, words) = cut_at(line, b' ')?;
    if verb == b"arrive".as_slice() {
        arrive(names, words)
    } else if verb == b"cell".as_slice() {
        Some(ScriptEvent::Cell(names.group(words)?))
    } else if verb == b"frame".as_slice() {
        Some(ScriptEvent::Frame(names.group(words)?))
    } else if verb == b"publish".as_slice() {
        publish(further, words)
    } else {
        None
    }
}

/// The form of a script's lines: the names of its station, and the number of further tables.
#[derive(Clone, Copy)]
pub struct ScriptForm<'a> {
    pub names: &'a Names,
    pub further: usize,
}

impl LineForm for ScriptForm<'_> {
    ghost use Rattle.a429_replay.specs.Script.{line_event};
    ghost use Rattle.a429_replay.specs.Kept.{CanBeKept};

    type Entry = ScriptEvent;

    ghost states = { λ f. line_event f.names.now f.further };

    ghost fits = { λ f e. CanBeKept f.further e };

    fn entry(&self, line: &[u8]) -> Option<ScriptEvent> {
        read_line(self.names, self.further, line)
    }
}

/// Reads a script. Errors: `Script` with the number of its first faulty line, from 1, or `Memory` if an allocation fails.
/// A line is faulty if it is not an event, names nothing, or does not end with a line feed. That line is evidence.
pub fn read_script(
    alloc: Global,
    form: &ScriptForm<'_>,
    script: &[u8],
) -> Result<Vec<KeptEvent>, Refused>
    ensures read { ReadsScript form.now.names.now form.now.further script.now result }
    ensures tables { IfOk result (λ kept. TakesAllTables form.now.further kept.items) }
{
    match read_events(alloc, form, script) {
        Ok(kept) => Ok(kept),
        Err(LinesFault::Line(line)) => {
            let evidence = form.names.line_evidence(alloc, script, line, form.further);
            Err(Refused::with(CommandRefusal::Script(line), Evidence::of_line(evidence)))
        }
        Err(LinesFault::NoMemory) => Err(Refused::plain(CommandRefusal::Memory)),
    }
}
