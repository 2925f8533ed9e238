//! The lines of decks, scripts and certificates, and the deck that they edit.
//!
//! What LOADSY, FIXSYS, VARSYS, CONGEN and DYNPRO read from cards (IAEA Computer Manual Series No. 16)
//! stands here in statements, one a line; the line format and its limits are this program's own. One
//! table says what stands behind each head word, and one reader meets it.
//!
//! Stands on `wasp_fixed` and, for the configurations of certificates, on `plant_data`. The contract
//! that the layers above use: `read_line` answers exactly the line of the grammar, in its form and its
//! ranges, or its first fault; and a `Deck` is the map that the script defines by looking back.
//!
//! A line has at most 4,096 bytes, a number 18 digits, a name 8 bytes. Whether a deck is complete and
//! fits together is looked at above.
#![tactic(auto)]

mod behind;
mod body;
mod deck;
mod fault;
mod fields;
mod form;
mod head;
mod head_word;
mod line;
mod line_word;
mod numbers;
mod reading;
mod scan;
mod statement;

pub use body::Body;
pub use deck::{Deck, decks_follow_scripts};
pub use fault::{LineError, LineFault, LineKind};
pub use head::Head;
pub use line::{CertLine, Line, MAX_LINE, Mode, read_line, statements_read_back};
pub use statement::Statement;
