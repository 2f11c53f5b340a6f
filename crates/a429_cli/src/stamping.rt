//! The stamps of a sheet: the files that it is about.
ghost use Rattle.std.specs.Prelude.{◌≡◌, ◌++◌, IfOk, OnOk};
ghost use Rattle.a429_arguments.specs.Requests.{asked_of};
ghost use Rattle.a429_cli.specs.Stamping.{stamp_line, stamped};

use a429_arguments::options::OptionName;
use a429_arguments::requests::Asked;
use a429_console::files::reading::printable_name;
use a429_console::reply::Reply;
use a429_documents::{TableFile, put_stamp};
use a429_text::Text;
use std::alloc::{AllocError, Global};

/// Writes the line of a file. Error: an allocation failed.
#[tactic(auto, unfolding(crate::specs::Stamping::stamp_line))]
fn put_line(alloc: Global, text: &mut Text, file: TableFile<'_>) -> Result<(), AllocError>
    ensures { OnOk result (text.new ≡ text.old ++ stamp_line file.entry.name.now file.entry.bytes.now) }
{
    let name = printable_name(alloc, file.name)?;
    text.put("# ");
    put_stamp(text, name.as_str(), file.bytes);
    text.put("\n");
    Ok(())
}

/// A reply with lines above its bytes. Error: an allocation failed.
fn below(lines: Text, reply: Reply) -> Result<Reply, AllocError>
    ensures bytes { IfOk result (λ done. done.bytes.items ≡ lines ++ reply.bytes.items) }
    ensures status { IfOk result (λ done. done.status ≡ reply.status) }
{
    let Reply {
        bytes,
        status,
        found,
    } = reply;
    let mut text = lines;
    text.put_bytes(&bytes);
    Ok(Reply {
        bytes: text.into_bytes()?,
        status,
        found,
    })
}

/// A reply, with the line of the file that it is about above it if stamps are asked for. Error: an allocation failed.
pub fn stamped(
    alloc: Global,
    asked: &Asked,
    file: TableFile<'_>,
    reply: Reply,
) -> Result<Reply, AllocError>
    ensures bytes { IfOk result (λ done. done.bytes.items
        ≡ stamped (asked_of asked.now).given (stamp_line file.entry.name.now file.entry.bytes.now) reply.bytes.items) }
    ensures status { IfOk result (λ done. done.status ≡ reply.status) }
{
    if !asked.has(OptionName::Stamp) {
        return Ok(reply);
    }
    let mut lines = Text::new(alloc);
    put_line(alloc, &mut lines, file)?;
    below(lines, reply)
}

/// A reply with the lines of two files above it, if stamps are asked for. Error: an allocation failed.
pub fn stamped_both(
    alloc: Global,
    asked: &Asked,
    first: TableFile<'_>,
    second: TableFile<'_>,
    reply: Reply,
) -> Result<Reply, AllocError>
    ensures bytes { IfOk result (λ done. done.bytes.items
        ≡ stamped (asked_of asked.now).given (stamp_line first.entry.name.now first.entry.bytes.now
        ++ stamp_line second.entry.name.now second.entry.bytes.now) reply.bytes.items) }
    ensures status { IfOk result (λ done. done.status ≡ reply.status) }
{
    if !asked.has(OptionName::Stamp) {
        return Ok(reply);
    }
    let mut lines = Text::new(alloc);
    put_line(alloc, &mut lines, first)?;
    put_line(alloc, &mut lines, second)?;
    below(lines, reply)
}
