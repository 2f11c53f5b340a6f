//! The stamp of a document: which file it is about.
ghost use Rattle.std.specs.Prelude.{◌≡◌, ◌++◌};
ghost use Rattle.hex.specs.Hex.{encode_lower};
ghost use Rattle.sha2.specs.Sha256.{sha256};
ghost use Rattle.a429_documents.specs.Stamps.{stamp_text};

use a429_text::Text;
use hex::encode_to_slice;
use sha2::{Digest, Sha256};

/// Writes the digest of bytes in hexadecimal, as the program `sha256sum` prints it (FIPS 180-4).
fn put_digest(text: &mut Text, bytes: &[u8])
    ensures { text.new ≡ text.old ++ encode_lower (sha256 bytes.now) }
{
    let mut shown = [0u8; 64];
    match encode_to_slice(Sha256::digest(bytes), &mut shown) {
        Ok(()) => text.put_bytes(&shown),
        Err(_) => unreachable!(),
    }
}

/// Writes the stamp of a file: its name, and the digest of its bytes (profile: docs/FORMATS.md, Sheets).
#[tactic(auto, unfolding(crate::specs::Stamps::stamp_text))]
pub fn put_stamp(text: &mut Text, name: &str, bytes: &[u8])
    ensures { text.new ≡ text.old ++ stamp_text name.now bytes.now }
{
    text.put(name);
    text.put(" sha256 ");
    put_digest(text, bytes);
}
