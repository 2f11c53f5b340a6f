//! The room of the page.
ghost use Rattle.std.specs.Prelude.{◌≡◌, true, false};
ghost use Rattle.a429_page.specs.Rooms.{do_fit, room_with};

/// Puts both at the begin of the room, if they fit. `false` if they do not: then the room is as it was.
pub(crate) fn put(out: &[u8], err: &[u8], room: &mut [u8]) -> bool
    ensures fits { result ≡ do_fit out.now err.now room.old }
    ensures room { result ≡ true → room.new ≡ room_with out.now err.now room.old }
    ensures left { result ≡ false → room.new ≡ room.old }
{
    if out.len() > room.len() || err.len() > room.len() - out.len() {
        return false;
    }
    let (first, rest) = room.split_at_mut(out.len());
    first.copy_from_slice(out);
    rest[..err.len()].copy_from_slice(err);
    true
}
