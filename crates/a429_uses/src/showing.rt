//! What the program prints in addition to the words that go out.
ghost use Rattle.a429_uses.specs.Stations.{HasOneOfEach};

use crate::calls::{plan_table, simulate, slot_of};
use crate::listening::LineCount;
use crate::started::run_all;
use crate::station::StationAnswers;
use a429_core::{Answer, Event};
use a429_equipment::Equipment;
use a429_filter::{LineSource, MemoryLine};
use a429_line::write_slot;
use a429_slots::{OUTPUTS, Plan, Proposal};
use a429_word::Label;
use a429_workers::{MemorySink, ReceiveTotals, SendTotals};
use anyhow::bail;
use std::alloc::Global;
use std::io;
use std::sync::Wait;
use std::thread::Threads;

/// A line with one word, of label 203.
fn line_of_one_word(alloc: Global) -> anyhow::Result<MemoryLine> {
    let mut symbols = Vec::from_array(alloc, slot_of(Label::new(0o203), 8000)?)?;
    symbols.extend_from_slice(&write_slot(None))?;
    Ok(MemoryLine::from_symbols(alloc, &symbols)?)
}

/// Prints a number after its name.
fn show_number<R: Print>(rt: &R, name: &str, number: u64) -> io::Result<()> {
    println!(rt; "{name} {number}")
}

/// Prints what the machine answered to an event.
fn show_answer<R: Print>(rt: &R, answer: Answer) -> io::Result<()> {
    match answer {
        Answer::Accepted { source } => show_number(rt, "simulated accepted", source as u64),
        Answer::Sent { bus, slot, word } => {
            let raw = match word {
                Some(word) => word.raw(),
                None => 0,
            };
            println!(rt; "simulated bus {bus} slot {slot} word {raw:08x}")
        }
        Answer::Changed { plan } => show_number(rt, "simulated changed", plan),
        Answer::Published { plan } => show_number(rt, "simulated published", plan),
        Answer::Refused(refusal) => println!(rt; "simulated refused {refusal}"),
    }
}

/// Prints what the machine answered to events.
fn show_each<R: Print>(rt: &R, answers: &[Answer]) -> io::Result<()> {
    for answer in answers {
        show_answer(rt, *answer)?;
    }
    Ok(())
}

/// Prints what the machine answers when a word comes in and a frame goes out.
fn show_simulation<R: Print + AllocGlobal>(
    rt: &R,
    proposal: Proposal<OUTPUTS>,
) -> anyhow::Result<()> {
    let events = vec![in rt.alloc();
        Event::Arrive {
            receiver: 0,
            raw: 0x607d00c1
        },
        Event::Cell { group: 0 },
        Event::Frame { group: 0 },
    ]?;
    let answers = simulate(rt.alloc(), proposal, events)?;
    Ok(show_each(rt, &answers)?)
}

/// Prints the buses and the slots of each group.
fn show_plan<R: Print>(rt: &R, plan: &Plan<OUTPUTS>) -> io::Result<()> {
    for group in 0..plan.groups() {
        let slots = plan.group(group);
        println!(rt;
            "group {group} buses {} slots {}",
            slots.buses(),
            slots.frame()
        )?;
    }
    Ok(())
}

/// Prints the word that a reader finds in a slot.
fn show_slot<R: Print + AllocGlobal>(rt: &R) -> anyhow::Result<()> {
    let mut line = line_of_one_word(rt.alloc())?;
    if let Some(raw) = line.next()? {
        println!(rt; "slot has {raw:08x}")?;
    }
    Ok(())
}

/// Prints what the calls without threads answer for a table. Error: the table has a fault or no plan, an allocation
/// failed, or standard output failed.
pub fn show_alone<R: Print + AllocGlobal>(rt: &R, table: &[u8]) -> anyhow::Result<()> {
    show_slot(rt)?;
    let Some(proposal) = plan_table(rt.alloc(), table) else {
        bail!("the table has no plan");
    };
    show_plan(rt, proposal.plan())?;
    show_simulation(rt, proposal)
}

/// Prints how many words receivers accepted.
fn show_accepted<R: Print>(rt: &R, receivers: &[ReceiveTotals]) -> io::Result<()> {
    for totals in receivers {
        show_number(rt, "started accepted", totals.accepted)?;
    }
    Ok(())
}

/// Prints how many cells groups sent.
fn show_cells<R: Print>(rt: &R, groups: &[SendTotals]) -> io::Result<()> {
    for totals in groups {
        show_number(rt, "started cells", totals.cells)?;
    }
    Ok(())
}

/// Prints what a station did whose threads were started for it: one word came in, and one frame went out. Error: the
/// station did not run to its end, an allocation failed, or standard output failed.
pub fn show_started<R: Print + AllocGlobal + Threads + Wait>(
    rt: &R,
    equipment: &Equipment,
) -> anyhow::Result<()>
    requires { HasOneOfEach equipment.now }
{
    let alloc = rt.alloc();
    let lines = vec![in alloc; line_of_one_word(alloc)?]?;
    let buses = vec![in alloc; MemorySink::new(alloc)]?;
    let report = run_all(rt, alloc, equipment, lines, buses, 1)?;
    show_accepted(rt, &report.receivers)?;
    Ok(show_cells(rt, &report.groups)?)
}

/// Prints the number under which the further plan was published, or why it was not.
fn show_published<R: Print>(rt: &R, published: anyhow::Result<u64>) -> io::Result<()> {
    match published {
        Ok(number) => show_number(rt, "published", number),
        Err(fault) => println!(rt; "refused {fault}"),
    }
}

/// Prints how many words of a line a receiver accepted and refused.
fn show_heard<R: Print>(rt: &R, heard: LineCount) -> io::Result<()> {
    let LineCount { accepted, refused } = heard;
    println!(rt; "accepted {accepted} refused {refused}")
}

/// Prints what a group sent.
fn show_sent<R: Print>(rt: &R, sent: SendTotals) -> io::Result<()> {
    let SendTotals { cells, words, plan } = sent;
    println!(rt; "cells {cells} words {words} plan {plan}")
}

/// Prints what the threads of a station answered. Error: that of the receiver, otherwise that of the group, or standard
/// output failed.
pub fn show_answers<R: Print>(rt: &R, done: StationAnswers) -> anyhow::Result<()> {
    let StationAnswers {
        heard,
        sent,
        published,
    } = done;
    show_published(rt, published)?;
    show_heard(rt, heard?)?;
    Ok(show_sent(rt, sent?)?)
}
