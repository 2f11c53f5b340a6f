//! Line files: which bytes they may have.
ghost use Rattle.std.specs.Prelude.{◌≡◌};
ghost use Rattle.std.specs.List.{list_all};
ghost use Rattle.a429_line.specs.LineBytes.{first_bad_byte, is_line_byte};

/// Whether a line file may have this byte: it stands for a symbol, or is skipped.
fn is_line_byte(byte: u8) -> bool
    ensures { result ≡ is_line_byte byte }
{
    (byte == b'1') | (byte == b'0') | (byte == b'.') | (byte == b' ') | (byte == b'\n')
}

/// Whether a line file may have each of these bytes.
fn are_line_bytes(bytes: &[u8]) -> bool
    ensures { result ≡ list_all is_line_byte bytes.now }
{
    let mut good = true;
    for byte in bytes {
        good = good & is_line_byte(*byte);
    }
    good
}

/// The place of the first byte, from 0, that a line file may not have; `None` if it may have them all. A line file
/// has `1`, `0` and `.` for the symbols, and spaces and line feeds, which are skipped (profile: line file).
#[tactic(auto, unfolding(crate::specs::LineBytes::first_bad_byte))]
pub fn first_bad_byte(bytes: &[u8]) -> Option<usize>
    ensures { result ≡ first_bad_byte bytes.now }
{
    if are_line_bytes(bytes) {
        return None;
    }
    bytes.iter().position(|byte| !is_line_byte(*byte))
}
