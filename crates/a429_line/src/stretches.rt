//! Stretches of a line's bytes: what a reader takes of them at once.
ghost use Rattle.std.specs.Prelude.{◌≡◌, ◌+◌, ◌^◌, ◌≤◌, ◌<◌, [], ℕ, IfSome, IsTrue, None, length};
ghost use Rattle.std.specs.Option.{option_to_list};
ghost use Rattle.a429_line.specs.LineBytes.{bit_of, symbol_of};
ghost use Rattle.a429_line.specs.Stages.{after_all, due_in};
ghost use Rattle.a429_line.specs.Stretches.{Takes, places};
ghost use Rattle.a429_line.specs.declared.stage.Stage.{Stage};
ghost use Rattle.a429_line.specs.declared.stage.Stage.TheVariants.{Between, Within};

use crate::found::{Found, Symbol};
use crate::stage::Stage;
use std::simd::prelude::*;

/// How many Nulls are counted.
const GAP: u32 = 4;

/// The bits of a word (ARINC 429 Part 1).
const BITS: u32 = 32;

/// A run of 32 bits, in bytes.
const RUN: usize = 32;

/// The symbol that a byte stands for.
fn symbol_of(byte: u8) -> Option<Symbol>
    ensures { result ≡ symbol_of byte }
{
    match byte {
        b'1' => Some(Symbol::Hi),
        b'0' => Some(Symbol::Lo),
        b'.' => Some(Symbol::Null),
        _ => None,
    }
}

/// The bit that a byte stands for.
fn bit_of(byte: u8) -> Option<u32>
    ensures { result ≡ bit_of byte }
{
    match byte {
        b'1' => Some(1),
        b'0' => Some(0),
        _ => None,
    }
}

/// Takes the symbol of a byte, if it stands for one, and gives the report that is due at it.
#[tactic(auto, unfolding(crate::specs::Stages::due_in, crate::specs::Stages::after_all))]
fn take_byte(stage: &mut Stage, byte: u8) -> Option<Found>
    ensures due { due_in stage.old (option_to_list (symbol_of byte)) ≡ option_to_list result }
    ensures after { after_all stage.old (option_to_list (symbol_of byte)) ≡ stage.new }
{
    match symbol_of(byte) {
        Some(symbol) => stage.take(symbol),
        None => None,
    }
}

/// Takes the Nulls that come next: the place after them, and how many are counted.
fn take_gap(bytes: &[u8], from: usize, nulls: u32) -> (usize, u32)
    requires { from ≤ length bytes.now }
    ensures { Takes bytes.now from (Between nulls) [] result.0 (Between result.1) }
{
    let mut at = from;
    let mut nulls = nulls;
    while at < bytes.len() && bytes[at] == b'.' {
        nulls = if nulls < GAP { nulls + 1 } else { nulls };
        at += 1;
    }
    (at, nulls)
}

/// Takes the bits of a run that come next, up to 32: the place after them, the run's length and its number.
fn take_run(bytes: &[u8], from: usize, len: u32, raw: u32) -> (usize, u32, u32)
    requires { from ≤ length bytes.now }
    ensures { Takes bytes.now from (Within len raw) [] result.0 (Within result.1 result.2) }
{
    let mut at = from;
    let mut len = len;
    let mut raw = raw;
    while at < bytes.len() && len < BITS {
        let Some(bit) = bit_of(bytes[at]) else {
            return (at, len, raw);
        };
        raw |= bit << len;
        len += 1;
        at += 1;
    }
    (at, len, raw)
}

/// The places of a byte among 32, as the bits of a number: the first is the lowest.
#[inline(always)]
fn places_of(run: u8x32, byte: u8) -> u64
    ensures places { result ≡ places byte run }
    ensures few { result < 2 ^ 32 }
{
    run.simd_eq(u8x32::splat(byte)).to_bitmask()
}

/// The number of the next 32 bytes, if all are bits. After a gap they are a run.
fn whole_run(bytes: &[u8], from: usize) -> Option<u32>
    requires { from + 32 ≤ length bytes.now }
    ensures { (nulls : ℕ) → 4 ≤ nulls → IfSome result (λ raw. Takes bytes.now from (Between nulls) [] (from + 32) (Within 32 raw)) }
{
    let run = u8x32::from_slice(&bytes[from..]);
    let ones = places_of(run, b'1');
    let zeros = places_of(run, b'0');
    // no byte is both: all are bits if and only if each bit of the sum is set
    if ones + zeros == 0xffff_ffff {
        Some(ones as u32)
    } else {
        None
    }
}

/// Takes a line feed if it comes next: the place after it.
fn take_line_feed(bytes: &[u8], from: usize) -> usize
    requires { from ≤ length bytes.now }
    ensures { (stage : Stage) → Takes bytes.now from stage [] result stage }
{
    if from < bytes.len() && bytes[from] == b'\n' {
        from + 1
    } else {
        from
    }
}

/// Takes bytes without a report: the place after them, and the stage then.
fn pass(bytes: &[u8], from: usize, stage: Stage) -> (usize, Stage)
    requires { from ≤ length bytes.now }
    ensures { Takes bytes.now from stage [] result.0 result.1 }
{
    match stage {
        Stage::Between(nulls) => {
            let (at, nulls) = take_gap(bytes, from, nulls);
            if nulls >= GAP && bytes.len() - at >= RUN {
                if let Some(raw) = whole_run(bytes, at) {
                    return (take_line_feed(bytes, at + RUN), Stage::Within(BITS, raw));
                }
            }
            (at, Stage::Between(nulls))
        }
        Stage::Within(len, raw) => {
            let (at, len, raw) = take_run(bytes, from, len, raw);
            (at, Stage::Within(len, raw))
        }
        Stage::Reported => (from, stage),
    }
}

/// Takes bytes up to the next report: the report, the place after it, and the stage then. Without a report it is `None`,
/// and all bytes were taken.
pub fn next_found(bytes: &[u8], from: usize, stage: Stage) -> (Option<Found>, usize, Stage)
    requires { from ≤ length bytes.now }
    ensures takes { Takes bytes.now from stage (option_to_list result.0) result.1 result.2 }
    ensures goes_on { IfSome result.0 (λ _. from < result.1) }
    ensures end { result.0 ≡ None → result.1 ≡ length bytes.now }
{
    let (mut at, mut now) = pass(bytes, from, stage);
    while at < bytes.len() {
        let found = take_byte(&mut now, bytes[at]);
        at += 1;
        if found.is_some() {
            return (found, at, now);
        }
        let (reached, passed) = pass(bytes, at, now);
        at = reached;
        now = passed;
    }
    (None, at, now)
}
