//! Files as the commands read them.
ghost use Rattle.std.specs.Prelude.{◌≡◌, ◌∷◌, List, ℕ, Option, IfOk, string_bytes};
ghost use Rattle.a429_arguments.specs.Texts.{texts_of};
ghost use Rattle.a429_console.specs.Readings.{HasRead, IsAnswerOf, answer_by};
ghost use Rattle.a429_console.specs.FileReadings.{AreLogReadings, AreReadings, AreReadingsOf, IsReading, IsReadingOf, printable_char, printable_name};

use crate::files::contents::Contents;
use crate::files::{FileFault, FileReader, FileTrouble, LARGEST_FILE, LARGEST_LOG};
use crate::refusals::evidence::Evidence;
use crate::refusals::{CommandRefusal, Refused};
use std::alloc::{AllocError, Global};

/// A character as a refusal prints it. A control character, such as a line feed, is `?`.
pub(crate) fn printable_char(c: char) -> char
    ensures { result ≡ printable_char c }
{
    if c.is_control() { '?' } else { c }
}

/// A name as a refusal prints it, in one line. Error: an allocation failed.
#[tactic(auto, unfolding(crate::specs::FileReadings::printable_name))]
pub fn printable_name(alloc: Global, name: &str) -> Result<String, AllocError>
    ensures { IfOk result (λ shown. string_bytes shown ≡ printable_name name.now) }
{
    name.chars().map(|c| printable_char(c)).collect(alloc)
}

/// What a command takes of the answer to a file's name: at most `most` bytes. A refusal has the reader's reason.
fn contents_of_answer<C: Contents>(
    alloc: Global,
    name: &str,
    most: usize,
    answer: Result<C, FileFault>,
    trouble: FileTrouble,
) -> Result<C, Refused>
    ensures { (file : List ℕ → Option (List ℕ)) → IsAnswerOf file name.now (answer_by C.text answer)
        → IsReadingOf C.text most file name.now result }
{
    match answer {
        Ok(contents) if contents.has_at_most(most) => Ok(contents),
        Ok(_) | Err(FileFault::Refused) => match printable_name(alloc, name) {
            Ok(name) => Err(Refused::with(CommandRefusal::File(name), Evidence::File(trouble))),
            Err(_) => Err(Refused::plain(CommandRefusal::Memory)),
        },
        Err(FileFault::NoMemory) => Err(Refused::plain(CommandRefusal::Memory)),
    }
}

/// What is kept of a file, which has at most `most` bytes. Error: the file cannot be read or is larger, or an allocation
/// failed.
fn read_up_to<F: FileReader, C: Contents>(
    alloc: Global,
    files: &mut F,
    name: &str,
    most: usize,
) -> Result<C, Refused>
    ensures { HasRead F.answers (λ file. IsReadingOf C.text most file name.now result) files.old files.new }
{
    let answer = C::ask(alloc, files, name, most);
    let trouble = files.trouble(name);
    contents_of_answer(alloc, name, most, answer, trouble)
}

/// The bytes of a file, at most 16 MiB. Error: the file cannot be read or is larger, or an allocation failed.
pub fn read_file<F: FileReader>(
    alloc: Global,
    files: &mut F,
    name: &str,
) -> Result<Vec<u8>, Refused>
    ensures { HasRead F.answers (λ file. IsReading file name.now result) files.old files.new }
{
    read_up_to(alloc, files, name, LARGEST_FILE)
}

/// What is kept of several files, each of which has at most `most` bytes. Error: that of the first file that has one.
fn read_all_up_to<F: FileReader, C: Contents>(
    alloc: Global,
    files: &mut F,
    names: &[&str],
    most: usize,
) -> Result<Vec<C>, Refused>
    ensures { HasRead F.answers (λ file. AreReadingsOf C.text most file (texts_of names.now) result) files.old files.new }
{
    let mut all = Vec::new(alloc);
    for name in names {
        all.push(read_up_to(alloc, files, name, most)?)?;
    }
    Ok(all)
}

/// The bytes of several files, at most 16 MiB each. Error: the first file that cannot be read or is larger, or an
/// allocation failed.
pub fn read_files<F: FileReader>(
    alloc: Global,
    files: &mut F,
    names: &[&str],
) -> Result<Vec<Vec<u8>>, Refused>
    ensures { HasRead F.answers (λ file. AreReadings file (texts_of names.now) result) files.old files.new }
{
    read_all_up_to(alloc, files, names, LARGEST_FILE)
}

/// The name of a log, and those of the logs that follow it.
fn log_names<'a>(
    alloc: Global,
    first: &'a str,
    more: &'a [&'a str],
) -> Result<Vec<&'a str>, AllocError>
    ensures { IfOk result (λ names. texts_of names.items ≡ first.now ∷ texts_of more.now) }
{
    let mut names = Vec::new(alloc);
    names.push(first)?;
    names.extend_from_slice(more)?;
    Ok(names)
}

/// Several logs in pieces, at most 1 GiB each. Error: the first log that cannot be read or is larger, or an allocation
/// failed.
pub fn read_log_files<F: FileReader>(
    alloc: Global,
    files: &mut F,
    names: &[&str],
) -> Result<Vec<Vec<Vec<u8>>>, Refused>
    ensures { HasRead F.answers (λ file. AreLogReadings file (texts_of names.now) result) files.old files.new }
{
    read_all_up_to(alloc, files, names, LARGEST_LOG)
}

/// A log and those that follow it, in pieces, at most 1 GiB each. Error: the first log that cannot be read or is larger, or
/// an allocation failed.
pub fn read_logs<'a, F: FileReader>(
    alloc: Global,
    files: &mut F,
    first: &'a str,
    more: &'a [&'a str],
) -> Result<Vec<Vec<Vec<u8>>>, Refused>
    ensures { HasRead F.answers (λ file. AreLogReadings file (first.now ∷ texts_of more.now) result) files.old files.new }
{
    match log_names(alloc, first, more) {
        Ok(names) => read_log_files(alloc, files, &names),
        Err(_) => Err(Refused::plain(CommandRefusal::Memory)),
    }
}
