//! What `draw` writes about a plan.
ghost use Rattle.std.specs.Prelude.{◌≡◌, ◌<◌, IfErr, IfOk, IfSome, Some, length};
ghost use Rattle.std.specs.Option.{option_copied};
ghost use Rattle.a429_cli.specs.Drawings.{GivesGroup, GivesNamedImage, GivesNumbered, group_numbered, refusal_of};
ghost use Rattle.a429_console.specs.declared.refusals.CommandRefusal.TheVariants.{Memory};
ghost use Rattle.a429_slots.specs.Tables.{groups_of};

use a429_arguments::options::OptionName;
use a429_arguments::requests::Asked;
use a429_console::files::reading::printable_name;
use a429_console::refusals::tables::no_group;
use a429_console::refusals::{CommandRefusal, Refused};
use a429_console::reply::Reply;
use a429_documents::{Drawing, DrawingFault, DrawingForm, TableFile, draw_text, page_text};
use a429_equipment::GroupRow;
use a429_slots::{OUTPUTS, Proposal};
use std::alloc::{AllocError, Global};

/// What is drawn of a plan: an image, or a page with it and the documents.
#[derive(Clone, Copy)]
pub struct Picture {
    pub form: DrawingForm,
    pub is_page: bool,
}

impl Picture {
    ghost use Rattle.std.specs.Prelude.{◌≡◌};
    ghost use Rattle.a429_arguments.specs.Requests.{asked_of};
    ghost use Rattle.a429_cli.specs.Drawings.{picture_of};

    /// The picture that a request asks for.
    pub fn of(asked: &Asked) -> Picture
        ensures { result ≡ picture_of (asked_of asked.now).given }
    {
        let form = DrawingForm {
            slots: asked.number(OptionName::Slots),
            width: asked.number(OptionName::Width),
        };
        Picture {
            form,
            is_page: asked.has(OptionName::Html),
        }
    }
}

/// The number of the first group of this name.
#[tactic(auto, unfolding(crate::specs::Drawings::group_numbered))]
fn group_numbered(groups: &[GroupRow], name: &str) -> Option<usize>
    ensures number { result ≡ group_numbered groups.now name.now }
    ensures known { IfSome result (λ number. number < length groups.now) }
{
    groups.iter().position(|group| group.name.as_str() == name)
}

/// The number of the group to draw; `None` draws all groups. Error: no group has this name. It is `Memory` instead if an
/// allocation for the name fails.
pub fn group_asked(
    alloc: Global,
    groups: &[GroupRow],
    group: Option<&str>,
) -> Result<Option<usize>, CommandRefusal>
    ensures asked { GivesGroup groups.now (option_copied group.entry) result }
    ensures known { IfOk result (λ number. IfSome number (λ number. number < length groups.now)) }
{
    let Some(name) = group else {
        return Ok(None);
    };
    match group_numbered(groups, name) {
        Some(number) => Ok(Some(number)),
        None => Err(no_group(alloc, name)),
    }
}

/// The refusal of an image.
fn refusal_of(fault: DrawingFault) -> CommandRefusal
    ensures { result ≡ refusal_of fault }
{
    match fault {
        DrawingFault::TooHigh => CommandRefusal::TooMuch,
        DrawingFault::NoMemory => CommandRefusal::Memory,
    }
}

/// A page about the table in a file, with an image. Error: an allocation failed.
fn page_of(
    alloc: Global,
    file: TableFile<'_>,
    drawing: &Drawing<'_>,
) -> Result<Vec<u8>, AllocError> {
    let name = printable_name(alloc, file.name)?;
    let shown = TableFile {
        name: name.as_str(),
        bytes: file.bytes,
    };
    page_text(alloc, drawing, shown)
}

/// A picture of what is drawn: an image, or a page with it. An allocation that fails is refused.
fn picture_text(
    alloc: Global,
    file: TableFile<'_>,
    drawing: &Drawing<'_>,
    is_page: bool,
) -> Result<Reply, Refused>
    ensures done { IfOk result (λ reply. reply.status ≡ 0) }
    ensures refused { IfErr result (λ refusal. refusal ≡ Memory) }
{
    let text = if is_page {
        page_of(alloc, file, drawing)
    } else {
        draw_text(alloc, drawing, file.bytes)
    };
    match text {
        Ok(text) => Ok(Reply::done(text)),
        Err(_) => Err(Refused::plain(CommandRefusal::Memory)),
    }
}

/// The picture of a proposal's plan, of the group of this number or of all. One that is too high is refused.
fn image_numbered(
    alloc: Global,
    file: TableFile<'_>,
    proposal: &Proposal<OUTPUTS>,
    number: Option<usize>,
    picture: Picture,
) -> Result<Reply, Refused>
    requires { IfSome number (λ number. number < length (groups_of proposal.now.plan)) }
    ensures { GivesNumbered proposal.now number picture result }
{
    match Drawing::of(alloc, proposal, number, picture.form) {
        Ok(drawing) => picture_text(alloc, file, &drawing, picture.is_page),
        Err(fault) => Err(Refused::plain(refusal_of(fault))),
    }
}

/// The picture of a proposal's plan, of the group of this name or of all, with status 0. Errors, in this order: no group
/// has this name, or the image is too high. `Memory` if an allocation fails.
pub fn image_of(
    alloc: Global,
    file: TableFile<'_>,
    proposal: &Proposal<OUTPUTS>,
    group: Option<&str>,
    picture: Picture,
) -> Result<Reply, Refused>
    ensures { GivesNamedImage proposal.now (option_copied group.entry) picture result }
{
    let _plan = proposal.plan();
    let number = group_asked(alloc, proposal.equipment().groups(), group)?;
    image_numbered(alloc, file, proposal, number, picture)
}
