//! What takes the lines of a command.
ghost use Rattle.std.specs.Prelude.{◌≡◌, ◌<◌, List, ℕ, Bool, Option, Err, OnOk, IfErr, IsErr, IsTrue};
ghost use Rattle.std.specs.Io.KnownBytes.{Appends, Keeps};
ghost use Rattle.std.specs.IoError.{error_kind};
ghost use Rattle.a429_console.specs.Outputs.{CountsFault, FailedCalls, FailureIsCounted, IsFaultOfKind, calls_of};

pub mod endings;

use std::io;
use std::io::{ErrorKind, Write};
use thiserror::Error;

/// Why an output failed. Which of the bytes of this call it took is not known.
#[derive(Clone, Copy, Debug, PartialEq, Eq, Error)]
pub enum OutputFault {
    /// Its reader has closed it.
    #[error("the reader of the output closed it")]
    Closed,
    /// Another cause.
    #[error("the output failed")]
    Failed,
}

impl OutputFault {
    /// The fault of a writer that answered this error: `Closed` if and only if its kind is `BrokenPipe`.
    pub fn of(error: &io::Error) -> OutputFault
        ensures { IsFaultOfKind (error_kind error.now) result }
    {
        match error.kind() {
            ErrorKind::BrokenPipe => OutputFault::Closed,
            _ => OutputFault::Failed,
        }
    }
}

/// What takes the lines of a command. After a call failed, it takes nothing more: each later call fails too.
pub trait Output {
    /// The bytes that it took, if they are known.
    ghost contents: { Self → Option (List ℕ) };

    /// What is known of its calls that failed.
    ghost failures: { Self → FailedCalls };

    /// Whether it passed on all that it took.
    ghost is_flushed: { Self → Bool };

    /// Takes all of the bytes. Error: the output failed.
    fn put(&mut self, bytes: &[u8]) -> Result<(), OutputFault>
        ensures taken { OnOk result (Appends (contents self.old) (contents self.new) bytes.now) }
        ensures faults { CountsFault result (failures self.old) (failures self.new) }
        ensures ended { 0 < (failures self.old).count → IsErr result };

    /// Passes on what it took. Error: the output failed.
    fn flush(&mut self) -> Result<(), OutputFault>
        ensures taken { OnOk result (Keeps (contents self.old) (contents self.new)) }
        ensures flushed { OnOk result (IsTrue (is_flushed self.new)) }
        ensures faults { CountsFault result (failures self.old) (failures self.new) }
        ensures ended { 0 < (failures self.old).count → IsErr result };
}

/// A writer that passes on what it took when it is asked to.
pub trait Flushing: Write {
    /// Whether it answered that all that it took was passed on, and took nothing since.
    ghost has_passed_on: { Self → Bool };

    /// Passes on what it took. The error is the writer's.
    fn pass_on(&mut self) -> io::Result<()>
        ensures bytes { Keeps (Self.contents self.old) (Self.contents self.new) }
        ensures passed_on { OnOk result (IsTrue (has_passed_on self.new)) };
}

impl<W: Write> Flushing for W {
    ghost use Rattle.std.specs.Prelude.{true};

    ghost has_passed_on = { λ _. true };

    fn pass_on(&mut self) -> io::Result<()> {
        self.flush()
    }
}

/// A writer as an output. After a call that failed the writer is left alone.
#[derive(Drop)]
pub struct CountedWriter<W> {
    pub writer: W,
    /// How many calls failed. At the last value of 64 bits it counts no more.
    pub failures: u64,
    /// Whether the first of them found that the reader has closed it.
    pub is_closed: bool,
}

impl<W: Flushing> CountedWriter<W> {
    /// A writer of which no call failed.
    pub fn new(writer: W) -> Self
        ensures writer { result.writer ≡ writer }
        ensures failures { result.failures ≡ 0 }
    {
        CountedWriter {
            writer,
            failures: 0,
            is_closed: false,
        }
    }

    /// Counts a call that failed.
    fn fail(&mut self, fault: OutputFault) -> Result<(), OutputFault>
        ensures fault { result ≡ Err fault }
        ensures counted { FailureIsCounted fault (calls_of self.old.failures self.old.is_closed)
            (calls_of self.new.failures self.new.is_closed) }
        ensures writer { self.new.writer ≡ self.old.writer }
    {
        self.failures = self.failures.saturating_add(1);
        self.is_closed = matches!(fault, OutputFault::Closed);
        Err(fault)
    }

    /// Fails as the first call that failed did.
    fn fail_again(&mut self) -> Result<(), OutputFault>
        ensures fault { IsErr result }
        ensures faults { CountsFault result (calls_of self.old.failures self.old.is_closed)
            (calls_of self.new.failures self.new.is_closed) }
    {
        if self.is_closed {
            self.fail(OutputFault::Closed)
        } else {
            self.fail(OutputFault::Failed)
        }
    }

    /// Counts a call of the writer, if it failed.
    fn answer(&mut self, answer: io::Result<()>) -> Result<(), OutputFault>
        ensures writer { self.new.writer ≡ self.old.writer }
        ensures failed { IsErr answer → IsErr result }
        ensures cause { IfErr answer (λ error. IfErr result (IsFaultOfKind (error_kind error))) }
        ensures faults { CountsFault result (calls_of self.old.failures self.old.is_closed)
            (calls_of self.new.failures self.new.is_closed) }
    {
        match answer {
            Ok(()) => Ok(()),
            Err(error) => self.fail(OutputFault::of(&error)),
        }
    }
}

impl<W: Flushing> Output for CountedWriter<W> {
    ghost use Rattle.a429_console.specs.Outputs.{calls_of};

    ghost contents = { λ counted. W.contents counted.writer };

    ghost failures = { λ counted. calls_of counted.failures counted.is_closed };

    ghost is_flushed = { λ counted. W.has_passed_on counted.writer };

    fn put(&mut self, bytes: &[u8]) -> Result<(), OutputFault> {
        if self.failures > 0 {
            return self.fail_again();
        }
        let answer = self.writer.write_all(bytes);
        self.answer(answer)
    }

    fn flush(&mut self) -> Result<(), OutputFault> {
        if self.failures > 0 {
            return self.fail_again();
        }
        let answer = self.writer.pass_on();
        self.answer(answer)
    }
}
