//! A page that shows a plan and its documents.
use crate::drawing::places::width_of;
use crate::drawing::{Drawing, put_image};
use crate::kept::{kept_texts, render_kept};
use crate::lint::lint_sheet;
use crate::margin::margin_sheet;
use crate::sheets::{PlanSheet, SOURCE, plan_sheet};
use crate::stamps::put_stamp;
use a429_equipment::Equipment;
use a429_slots::{OUTPUTS, Proposal};
use a429_text::{Sheet, SheetForm, Text};
use std::alloc::{AllocError, Global};

/// A table that a page is about: the name of its file, and its bytes.
#[derive(Clone, Copy)]
pub struct TableFile<'a> {
    pub name: &'a str,
    pub bytes: &'a [u8],
}

/// Writes bytes as the text of a page or an image.
pub(crate) fn put_escaped(page: &mut Text, bytes: &[u8]) {
    for byte in bytes {
        match *byte {
            b'&' => page.put("&amp;"),
            b'<' => page.put("&lt;"),
            b'>' => page.put("&gt;"),
            _ => page.put_bytes(&[*byte]),
        }
    }
}

/// Begins a page with an image of this width.
fn put_head(page: &mut Text, width: u32) {
    page.put(
        "<!DOCTYPE html>\n<html lang='en'>\n<head>\n<meta charset='utf-8'>\n<title>Slot tables</title>\n",
    );
    page.put(
        "<style>\n@page { size: A3 landscape; margin: 10mm }\nbody { font-family: sans-serif }\n",
    );
    page.fill(
        &["svg { display: block; width: ", "px }\n"],
        &[u64::from(width)],
    );
    page.put(
        "@media print { svg { width: 100% } }\npre { font-size: 12px }\n</style>\n</head>\n<body>\n",
    );
    page.put("<h1>Slot tables</h1>\n");
}

/// Writes which table a page is about. Error: an allocation failed.
fn put_table(alloc: Global, page: &mut Text, table: TableFile<'_>) -> Result<(), AllocError> {
    let mut stamp = Text::new(alloc);
    put_stamp(&mut stamp, table.name, table.bytes);
    page.put("<p>");
    put_escaped(page, stamp.as_bytes()?);
    page.put("</p>\n");
    Ok(())
}

/// Writes lines below their heading.
fn put_lines(page: &mut Text, heading: &str, lines: &[u8]) {
    page.put("<h2>");
    page.put(heading);
    page.put("</h2>\n<pre>\n");
    put_escaped(page, lines);
    page.put("</pre>\n");
}

/// Writes a sheet in columns below its heading.
fn put_part(
    alloc: Global,
    page: &mut Text,
    heading: &str,
    sheet: &Sheet,
) -> Result<(), AllocError> {
    put_lines(page, heading, &sheet.render(alloc, SheetForm::Columns)?);
    Ok(())
}

/// Writes the outputs, with the columns that comments of their table bring.
fn put_outputs(
    alloc: Global,
    page: &mut Text,
    proposal: &Proposal<OUTPUTS>,
    table: &[u8],
) -> Result<(), AllocError> {
    let outputs = plan_sheet(alloc, proposal, PlanSheet::Icd(false), None);
    let lines = render_kept(alloc, SheetForm::Columns, table, &outputs, SOURCE)?;
    put_lines(page, "Outputs", &lines);
    Ok(())
}

/// Writes what would save a bus in each group.
fn put_margin(
    alloc: Global,
    page: &mut Text,
    proposal: &Proposal<OUTPUTS>,
) -> Result<(), AllocError> {
    let margin = margin_sheet(alloc, proposal)?;
    put_part(alloc, page, "Margin", &margin)
}

/// Writes the findings.
fn put_findings(alloc: Global, page: &mut Text, equipment: &Equipment) -> Result<(), AllocError> {
    let findings = lint_sheet(alloc, equipment)?;
    put_part(alloc, page, "Findings", &findings)
}

/// Writes the load of each bus.
fn put_loads(
    alloc: Global,
    page: &mut Text,
    proposal: &Proposal<OUTPUTS>,
) -> Result<(), AllocError> {
    let load = plan_sheet(alloc, proposal, PlanSheet::Load(None), None);
    put_part(alloc, page, "Load", &load)
}

/// Writes the documents of a proposal, and ends the page.
fn put_documents(
    alloc: Global,
    page: &mut Text,
    proposal: &Proposal<OUTPUTS>,
    table: &[u8],
) -> Result<(), AllocError> {
    put_outputs(alloc, page, proposal, table)?;
    put_loads(alloc, page, proposal)?;
    put_margin(alloc, page, proposal)?;
    put_findings(alloc, page, proposal.equipment())?;
    page.put("</body>\n</html>\n");
    Ok(())
}

/// Writes a page with an image, and the documents below it. Error: an allocation failed.
fn put_page(
    alloc: Global,
    page: &mut Text,
    drawing: &Drawing<'_>,
    table: TableFile<'_>,
) -> Result<(), AllocError> {
    put_head(page, width_of(drawing.form));
    put_table(alloc, page, table)?;
    put_image(page, drawing, &kept_texts(alloc, table.bytes)?);
    put_documents(alloc, page, drawing.proposal, table.bytes)
}

/// A page (HTML 5) that needs no other file and prints on A3 paper: the name and the digest of the table's file, the image
/// that `draw_text` gives, and below it the sheets of `icd`, `load`, `margin` and `lint` in columns. The outputs have the
/// columns that comments of the table bring. Error: an allocation failed.
pub fn page_text(
    alloc: Global,
    drawing: &Drawing<'_>,
    table: TableFile<'_>,
) -> Result<Vec<u8>, AllocError> {
    let mut page = Text::new(alloc);
    match put_page(alloc, &mut page, drawing, table) {
        Ok(()) => page.into_bytes(),
        Err(error) => Err(error),
    }
}
