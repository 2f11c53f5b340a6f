//! Which words of a line are received: filters of labels, and sources of words (profile).
//!
//! A `FilterSet` says which labels pass: all, or those of at most 32 filters. `LineSource` is the trait of what gives
//! the words of a line: write one for your receiver, or take `MemoryLine`. A `Socket` gives the words of a line that
//! have odd parity and pass its filters.
//!
//! ```text
//! let mut filters = FilterSet::all();
//! let exact = Filter {
//!     label: Label::new(0o203),
//!     mask: 0o377,
//! };
//! filters.add(exact).expect(rt, "room");
//! ..
//! let words = vec![in alloc; 0x8000_0021, WORD, 0x0000_00c1].expect(rt, "memory");
//! Socket::new(MemoryLine::from_words(words), exact_filter(rt))
//! ```
//!
//! `recv` gives the next word of that socket:
//!
//! ```text
//! assert!(rt; raw(socket.recv()) == stated);
//! ```
#![tactic(auto)]

mod filters;
mod lines;
mod passing;
mod sockets;
mod sources;

pub use filters::{FILTERS, Filter, FilterSet, FilterText, Full};
pub use lines::MemoryLine;
pub use sockets::Socket;
pub use sources::{LineSource, SourceFault};
