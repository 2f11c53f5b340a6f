//! A bus of its own: words that go out as text.
ghost use Rattle.std.specs.Prelude.{◌≡◌, OnOk, Some};
ghost use Rattle.std.specs.Coded.{→_prop};
ghost use Rattle.std.proofs.Props.{props};
ghost use Rattle.a429_uses.specs.Histories.{items_of};
ghost use Rattle.std.specs.Io.KnownBytes.{Appends};
ghost use Rattle.a429_uses.specs.Devices.{TellsTaken, sent_line, sent_lines, sure_text, word_line};

use crate::history::History;
use a429_word::Word;
use a429_workers::{BusSink, Sent, SinkFault};
use std::io;
use std::io::Write;

/// Writes the line of a word.
#[tactic(auto, unfolding(a429_word::specs::Hexadecimal::hex))]
fn write_word<W: Write>(out: &mut W, bus: u32, slot: u64, word: Word) -> io::Result<()>
    ensures { OnOk result (Appends (W.contents out.old) (W.contents out.new) (word_line bus slot word)) }
{
    let raw = word.raw();
    writeln!(out, "bus {bus} slot {slot} word {raw:08x}")
}

/// Writes the line of a cell, if it has a word.
fn write_sent<W: Write>(out: &mut W, sent: &Sent) -> io::Result<()>
    ensures { OnOk result (Appends (W.contents out.old) (W.contents out.new) (sent_line sent.now)) }
{
    match sent.word {
        Some(word) => write_word(out, sent.bus, sent.slot, word),
        None => Ok(()),
    }
}

/// Prints each word that a group sends, a line each: its bus, its slot and the word. It fails if its writer fails. As
/// long as it did not, what it printed is the lines of the cells that it took: the field `printed`, for `run_printing`.
#[derive(Drop)]
pub struct PrintBus<W: Write + Drop> {
    out: W,
    taken: History<Sent>,
    failures: u64,
    ghost printed: { TellsTaken W.contents → sure_text (W.contents out) failures ≡ sure_text (Some (sent_lines (items_of taken))) failures } by { →_prop (Prim.hlevel props) },
}

impl<W: Write + Drop> PrintBus<W> {
    ghost use Rattle.std.specs.Prelude.{◌≡◌, [], IfSome};
    ghost use Rattle.a429_uses.specs.Histories.{items_of};

    /// A bus that took nothing yet, on a writer that took nothing yet.
    pub fn new(out: W) -> PrintBus<W>
        requires { IfSome (W.contents out) (λ text. text ≡ []) }
        ensures { items_of result.taken ≡ [] }
    {
        PrintBus {
            out,
            taken: History::Nothing,
            failures: 0,
        }
    }
}

impl<W: Write + Drop> BusSink for PrintBus<W> {
    ghost use Rattle.std.specs.Prelude.{◌≡◌, ◌++◌, Some, OnOk};
    ghost use Rattle.std.specs.Io.KnownBytes.{Appends};
    ghost use Rattle.a429_workers.specs.Sinks.{failures_by, taken_by};
    ghost use Rattle.a429_uses.specs.Devices.{sent_line};
    ghost use Rattle.a429_uses.specs.Histories.{items_of};

    ghost taken = { λ bus. Some (items_of bus.taken) };

    ghost failed = { λ bus. bus.failures };

    fn put(&mut self, sent: &Sent) -> Result<(), SinkFault>
        ensures taken { items_of self.new.taken ≡ items_of self.old.taken ++ taken_by sent.now result }
        ensures failed { self.new.failures ≡ failures_by self.old.failures result }
        ensures printed { OnOk result (Appends (W.contents self.old.out) (W.contents self.new.out) (sent_line sent.now)) }
    {
        let PrintBus {
            out,
            taken,
            failures,
        } = self;
        if write_sent(out, sent).is_err() {
            *failures = failures.saturating_add(1);
            return Err(SinkFault);
        }
        taken.push(*sent);
        Ok(())
    }

    fn failures(&self) -> u64 {
        self.failures
    }
}
