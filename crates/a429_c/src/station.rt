//! What a program in C keeps of a station.

use crate::handle::Handle;
use crate::refusal_text::RefusalText;

/// The handle of a station, which is null if none is held, and the text of the last refusal.
#[repr(C)]
pub struct StationHandle {
    pub(crate) handle: Handle,
    pub(crate) refusal_text: RefusalText,
}
