//! A line of its own: words that come as text.
ghost use Rattle.std.specs.Prelude.{OnOk, IfOk, IsTrue};
ghost use Rattle.std.specs.Io.KnownBytes.{Keeps, IsAtEnd};
ghost use Rattle.a429_uses.specs.Devices.{ReadsWord};

use crate::history::History;
use a429_filter::{LineSource, SourceFault};
use a429_word::raw_word;
use std::io;
use std::io::{BufRead, Read};

/// Eight hexadecimal digits and a line feed.
const LINE: usize = 9;

/// Whether no byte is left. It waits for the next one.
fn is_at_end<R: BufRead>(reader: &mut R) -> io::Result<bool>
    ensures kept { OnOk result (Keeps (R.remaining reader.old) (R.remaining reader.new)) }
    ensures end { IfOk result (λ is_end. IsTrue is_end → IsAtEnd (R.remaining reader.old)) }
{
    Ok(reader.fill_buf()?.is_empty())
}

/// Reads the word of the next line of a text: eight hexadecimal digits and a line feed. `None` at the end. Error: the
/// reader fails, or the line has another form.
fn read_word<R: BufRead>(reader: &mut R) -> Result<Option<u32>, SourceFault>
    ensures word { ReadsWord (R.remaining reader.old) (R.remaining reader.new) result }
{
    match is_at_end(reader) {
        Ok(true) => return Ok(None),
        Ok(false) => {}
        Err(_) => return Err(SourceFault::Failed),
    }
    let mut line = [0u8; LINE];
    if reader.read_exact(&mut line).is_err() {
        return Err(SourceFault::Failed);
    }
    match raw_word(&line[..LINE - 1]) {
        Some(raw) if line[LINE - 1] == b'\n' => Ok(Some(raw)),
        _ => Err(SourceFault::Failed),
    }
}

/// Gives the words of a text as it comes, a line each: eight hexadecimal digits. It fails if its reader fails, and at a
/// line of another form.
#[derive(Drop)]
pub struct HexLine<R: BufRead + Drop> {
    reader: R,
    given: History<u32>,
    is_over: bool,
    failures: u64,
}

impl<R: BufRead + Drop> HexLine<R> {
    ghost use Rattle.std.specs.Prelude.{◌≡◌, []};
    ghost use Rattle.a429_uses.specs.Histories.{items_of};

    /// A line that gave nothing yet.
    pub fn new(reader: R) -> HexLine<R>
        ensures { items_of result.given ≡ [] }
    {
        HexLine {
            reader,
            given: History::Nothing,
            is_over: false,
            failures: 0,
        }
    }
}

impl<R: BufRead + Drop> LineSource for HexLine<R> {
    ghost use Rattle.std.specs.Prelude.{◌≡◌, ◌++◌};
    ghost use Rattle.a429_filter.specs.Sources.{failures_after, is_end, word_given};
    ghost use Rattle.a429_uses.specs.Devices.{ReadsWord};
    ghost use Rattle.a429_uses.specs.Histories.{items_of};

    ghost given = { λ line. items_of line.given };

    ghost ended = { λ line. line.is_over };

    ghost failed = { λ line. line.failures };

    fn next(&mut self) -> Result<Option<u32>, SourceFault>
        ensures given { items_of self.new.given ≡ items_of self.old.given ++ word_given result }
        ensures ended { self.new.is_over ≡ is_end result }
        ensures failed { self.new.failures ≡ failures_after self.old.failures result }
        ensures read { ReadsWord (R.remaining self.old.reader) (R.remaining self.new.reader) result }
    {
        let answer = read_word(&mut self.reader);
        self.is_over = answer == Ok(None);
        match answer {
            Ok(Some(raw)) => self.given.push(raw),
            Ok(None) => {}
            Err(_) => self.failures = self.failures.saturating_add(1),
        }
        answer
    }

    fn failures(&self) -> u64 {
        self.failures
    }
}
