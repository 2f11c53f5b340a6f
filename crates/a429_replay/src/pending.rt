//! Lines on their way out.
ghost use Rattle.std.specs.Prelude.{◌≡◌, ◌<◌, ◌++◌, ◌∷◌, [], length, IfOk, OnOk, OnErr};
ghost use Rattle.a429_replay.specs.Views.{answer_row, heading, refusal_row, told_answer, told_refusal};
ghost use Rattle.a429_console.specs.Outputs.{AppendsPending, CountsFault};
ghost use Rattle.a429_console.specs.RefusalText.{refusal_line};

use crate::answers::push_answer;
use crate::names::Names;
use crate::script::ScriptEvent;
use crate::slots::SlotTexts;
use crate::views::{View, is_sent, put_refusal_row, put_row};
use a429_console::output::{Output, OutputFault};
use a429_console::refusals::CommandRefusal;
use a429_core::Answer;
use a429_text::Text;
use std::alloc::{AllocError, Global};
use std::io::Write;

/// From how many bytes on lines are put out.
const FULL: usize = 65536;

/// Lines that were not yet put out, the texts of slots for them, and room for a refusal.
#[derive(Drop)]
pub struct Pending {
    alloc: Global,
    pub text: Vec<u8>,
    slots: SlotTexts,
    line: Vec<u8>,
}

/// The lines before the answers. Error: an allocation failed.
fn heading(alloc: Global, view: View) -> Result<Vec<u8>, AllocError>
    ensures { IfOk result (λ text. text.items ≡ heading view) }
{
    let mut text = Vec::new(alloc);
    if view.commas {
        text.extend_from_slice(b"event,group,bus,slot,word,source,receiver,plan,refused\n")?;
    }
    Ok(text)
}

impl Pending {
    /// The lines before the answers. Error: an allocation failed.
    pub fn open(alloc: Global, view: View) -> Result<Pending, AllocError>
        ensures { IfOk result (λ lines. lines.text.items ≡ heading view) }
    {
        Ok(Pending {
            alloc,
            text: heading(alloc, view)?,
            slots: SlotTexts::new(alloc),
            line: Vec::new(alloc),
        })
    }

    /// Appends what is printed of the answer to an event. Error: an allocation failed; then nothing is appended.
    #[inline(always)]
    pub fn push_answer(
        &mut self,
        view: View,
        names: &Names,
        event: ScriptEvent,
        answer: Answer,
    ) -> Result<(), AllocError>
        ensures line { OnOk result (self.new.text.items ≡ self.old.text.items ++ told_answer view names.now event answer) }
        ensures kept { OnErr result (self.new.text.items ≡ self.old.text.items) }
    {
        if !view.shows(event, is_sent(&answer)) {
            return Ok(());
        }
        if view.commas {
            return self.push_row(names, event, &answer);
        }
        push_answer(&mut self.text, &mut self.slots, names, answer)
    }

    /// Appends the answer to an event as a row. Error: an allocation failed; then nothing is appended.
    fn push_row(
        &mut self,
        names: &Names,
        event: ScriptEvent,
        answer: &Answer,
    ) -> Result<(), AllocError>
        ensures line { OnOk result (self.new.text.items ≡ self.old.text.items ++ answer_row names.now event answer.now) }
        ensures kept { OnErr result (self.new.text.items ≡ self.old.text.items) }
    {
        let mut row = Text::new(self.alloc);
        put_row(&mut row, names, event, answer);
        push_text(&mut self.text, &row)
    }

    /// Appends what is printed of the refusal of a table that was to be published. Error: an allocation failed; then
    /// nothing is appended.
    pub fn push_refusal(&mut self, view: View, refusal: &CommandRefusal) -> Result<(), AllocError>
        ensures line { OnOk result (self.new.text.items ≡ self.old.text.items ++ told_refusal view refusal.now) }
        ensures kept { OnErr result (self.new.text.items ≡ self.old.text.items) }
    {
        if !view.shows(ScriptEvent::Publish(1), false) {
            return Ok(());
        }
        if view.commas {
            self.push_refusal_row(refusal)
        } else {
            self.push_refusal_line(refusal)
        }
    }

    /// Appends the line of a refusal. Error: an allocation failed; then nothing is appended.
    fn push_refusal_line(&mut self, refusal: &CommandRefusal) -> Result<(), AllocError>
        ensures line { OnOk result (self.new.text.items ≡ self.old.text.items ++ refusal_line refusal.now ++ 10 ∷ []) }
        ensures kept { OnErr result (self.new.text.items ≡ self.old.text.items) }
    {
        self.line.clear();
        match writeln!(self.line, "{refusal}") {
            Ok(()) => self.text.extend_from_slice(&self.line),
            Err(_) => Err(AllocError),
        }
    }

    /// Appends the row of a refusal. Error: an allocation failed; then nothing is appended.
    fn push_refusal_row(&mut self, refusal: &CommandRefusal) -> Result<(), AllocError>
        ensures line { OnOk result (self.new.text.items ≡ self.old.text.items ++ refusal_row refusal.now) }
        ensures kept { OnErr result (self.new.text.items ≡ self.old.text.items) }
    {
        self.line.clear();
        let Ok(()) = write!(self.line, "{refusal}") else {
            return Err(AllocError);
        };
        let mut row = Text::new(self.alloc);
        put_refusal_row(&mut row, &self.line);
        push_text(&mut self.text, &row)
    }
}

/// Appends a text. Error: an allocation failed; then nothing is appended.
fn push_text(text: &mut Vec<u8>, more: &Text) -> Result<(), AllocError>
    ensures line { OnOk result (text.new.items ≡ text.old.items ++ more.now) }
    ensures kept { OnErr result (text.new.items ≡ text.old.items) }
{
    match more.as_bytes() {
        Ok(bytes) => text.extend_from_slice(bytes),
        Err(error) => Err(error),
    }
}

/// Puts lines out if they have become many, and goes on with none then. Error: the output failed.
pub fn put_if_full<O: Output>(text: &mut Vec<u8>, out: &mut O) -> Result<(), OutputFault>
    ensures put { OnOk result (AppendsPending (O.contents out.old) text.old.items (O.contents out.new) text.new.items []) }
    ensures few { OnOk result (length text.new.items < 65536) }
    ensures faults { CountsFault result (O.failures out.old) (O.failures out.new) }
{
    if text.len() >= FULL {
        out.put(text)?;
        text.clear();
    }
    Ok(())
}
