//! Slots as lines of cells have them. The text of a slot is kept, since a slot has a cell on each bus.
ghost use Rattle.std.specs.Prelude.{◌≡◌, ◌+◌, ◌≤◌, ◌++◌, ◌∷◌, [], drop, length};
ghost use Rattle.std.specs.Fmt.{decimal};

use a429_text::from_end::{put_decimal, put_text};
use std::alloc::Global;
use std::marker::Model;

/// The room of the longest text: two spaces and twenty digits, and two bytes more, so that it is copied in three steps.
const WIDTH: usize = 24;

/// How many slots' texts are kept.
const PLACES: u64 = 8;

/// A slot in decimal digits, between two spaces. They are the last of these bytes.
#[derive(Drop)]
struct SlotText {
    slot: u64,
    start: usize,
    bytes: [u8; WIDTH],
}

impl Model for SlotText {
    ghost use Rattle.std.specs.Prelude.{◌≡◌, ◌≤◌, ◌++◌, ◌∷◌, [], ℕ, drop};
    ghost use Rattle.std.specs.Fmt.{decimal};

    ghost Value = { ℕ };

    ghost view = { λ t. t.slot };

    ghost invariant = { λ t. (t.start ≤ 24) × (drop t.start t.bytes ≡ 32 ∷ decimal t.slot ++ 32 ∷ []) };
}

impl SlotText {
    fn of(slot: u64) -> SlotText
        ensures { result ≡ slot }
    {
        let mut bytes = [0u8; WIDTH];
        let at = put_text(&mut bytes, WIDTH, b" ");
        let at = put_decimal(&mut bytes, at, slot);
        let start = put_text(&mut bytes, at, b" ");
        SlotText { slot, start, bytes }
    }

    /// The slot.
    #[inline(always)]
    fn slot(&self) -> u64
        ensures { result ≡ self.now }
    {
        self.slot
    }

    /// Writes the text before the bytes that begin at `end`, and gives its start.
    #[inline(always)]
    fn put(&self, room: &mut [u8], end: usize) -> usize
        requires { (24 ≤ end) × (end ≤ length room.old) }
        ensures start { (result ≤ end) × (end ≤ result + 24) }
        ensures written { drop result room.new ≡ 32 ∷ decimal self.now ++ 32 ∷ drop end room.old }
        ensures size { length room.new ≡ length room.old }
    {
        put_text(room, end, &self.bytes) + self.start
    }
}

/// The texts of some slots, each at a place that the slot gives.
#[derive(Drop)]
pub struct SlotTexts {
    texts: Vec<SlotText>,
}

impl SlotTexts {
    /// No text is kept yet.
    pub fn new(alloc: Global) -> SlotTexts {
        SlotTexts {
            texts: Vec::new(alloc),
        }
    }

    /// Writes a slot between two spaces before the bytes that begin at `end`, and gives the start.
    #[inline(always)]
    pub fn put(&mut self, room: &mut [u8], end: usize, slot: u64) -> usize
        requires { (24 ≤ end) × (end ≤ length room.old) }
        ensures start { (result ≤ end) × (end ≤ result + 24) }
        ensures written { drop result room.new ≡ 32 ∷ decimal slot ++ 32 ∷ drop end room.old }
        ensures size { length room.new ≡ length room.old }
    {
        let place = (slot % PLACES) as usize;
        if place < self.texts.len() {
            let text = &self.texts[place];
            if text.slot() == slot {
                return text.put(room, end);
            }
        }
        self.put_new(room, end, slot)
    }

    /// Does the same for a slot whose text is not kept, and keeps it.
    #[inline(never)]
    fn put_new(&mut self, room: &mut [u8], end: usize, slot: u64) -> usize
        requires { (24 ≤ end) × (end ≤ length room.old) }
        ensures start { (result ≤ end) × (end ≤ result + 24) }
        ensures written { drop result room.new ≡ 32 ∷ decimal slot ++ 32 ∷ drop end room.old }
        ensures size { length room.new ≡ length room.old }
    {
        let text = SlotText::of(slot);
        let start = text.put(room, end);
        self.keep(text);
        start
    }

    /// Keeps the text of a slot in the place of another, unless an allocation fails.
    fn keep(&mut self, text: SlotText) {
        let place = (text.slot() % PLACES) as usize;
        if place < self.texts.len() {
            self.texts[place] = text;
        } else {
            let _ = self.texts.push(text);
        }
    }
}
