//! What a seat of the table knows. No value of this type is made.
use a429_equipment::{Equipment, Load};
use a429_word::Word;
use std::collections::LinkedList;

/// A desk, a receiver, a transmitter, the last two in one, or nothing.
pub struct View {
    pub station: Equipment,
    pub deals: bool,
    /// The numbers of the receivers that were given out.
    pub given: LinkedList<usize>,
    /// The numbers of the transmitters that were given out.
    pub sent: LinkedList<usize>,
    pub receives: bool,
    pub number: usize,
    /// What was accepted: the numbers of sources with words.
    pub accepted: LinkedList<(usize, Word)>,
    pub transmits: bool,
    pub group: usize,
    pub loads: LinkedList<Load>,
}
