//! Texts in rooms of the caller: that of the last refusal, and names.
ghost use Rattle.std.specs.Prelude.{◌≡◌, ◌≤◌, ◌++◌, drop, length};
ghost use Rattle.a429_c.specs.Calls.{fitting, given_or, kept_text, length_or, refusal_of, room_after, status_in, status_of, text_after, text_by, text_in};
ghost use Rattle.a429_c.specs.Statuses.{code_of, line_of};

use crate::statuses::Status;

/// How many bytes of the text of a refusal are kept.
pub(crate) const TEXT_ROOM: usize = 92;

/// The text of the last refusal, in the caller's memory.
#[repr(C)]
#[derive(Drop)]
pub struct RefusalText {
    pub(crate) length: u32,
    pub(crate) text: [u8; TEXT_ROOM],
}

/// Puts a text at the start of a room that it fits in.
pub(crate) fn put_start(room: &mut [u8], text: &[u8])
    requires { length text.now ≤ length room.old }
    ensures { room.new ≡ text.now ++ drop (length text.now) room.old }
{
    room[..text.len()].copy_from_slice(text);
}

impl RefusalText {
    /// The text.
    pub(crate) fn text(&self) -> &[u8]
        ensures { result.now ≡ text_in self.now }
    {
        let count = self.length as usize;
        if count <= TEXT_ROOM {
            &self.text[..count]
        } else {
            &self.text
        }
    }

    /// Stores a text, cut to the 92 bytes of its room.
    pub(crate) fn keep(&mut self, line: &[u8])
        ensures { text_in self.new ≡ kept_text line.now }
    {
        let count = line.len().min(TEXT_ROOM);
        put_start(&mut self.text, &line[..count]);
        self.length = count as u32;
    }

    /// Keeps the text of a status, and gives its number.
    pub(crate) fn refuse(&mut self, status: Status) -> u32
        ensures status { result ≡ code_of status }
        ensures refusal_text { text_in self.new ≡ kept_text (line_of status) }
    {
        self.keep(status.line());
        status.code()
    }

    /// Ends a call: the text of its refusal is kept, and its status given.
    pub(crate) fn end(&mut self, refused: Option<Status>) -> u32
        ensures status { result ≡ status_in refused }
        ensures refusal_text { text_in self.new ≡ text_by refused (text_in self.old) }
    {
        match refused {
            Some(status) => self.refuse(status),
            None => 0,
        }
    }

    /// Ends a call: what it gives goes into the caller's place.
    pub(crate) fn give<X: Copy>(&mut self, outcome: Result<X, Status>, place: &mut X) -> u32
        ensures status { result ≡ status_of outcome }
        ensures given { place.new ≡ given_or outcome place.old }
        ensures refusal_text { text_in self.new ≡ text_after outcome (text_in self.old) }
    {
        match outcome {
            Ok(given) => {
                *place = given;
                0
            }
            Err(status) => self.refuse(status),
        }
    }
}

/// Puts a text at the start of the caller's room, and its length into the caller's place, or gives why not.
pub(crate) fn put_text(text: &[u8], room: &mut [u8], count: &mut usize) -> Option<Status>
    ensures refused { result ≡ refusal_of (fitting (length room.old) text.now) }
    ensures room { room.new ≡ room_after (fitting (length room.old) text.now) room.old }
    ensures count { count.new ≡ length_or (fitting (length room.old) text.now) count.old }
{
    if text.len() > room.len() {
        return Some(Status::NoRoom);
    }
    put_start(room, text);
    *count = text.len();
    None
}
