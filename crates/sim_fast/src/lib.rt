//! The curves of the fast engine for MERSIM (IAEA Computer Manual Series No. 16, after Baleriaux and Booth):
//! the equivalent load behind a list of units, and what each unit covers of the load before it.
//!
//! Each curve begins behind the last loaded cell (no cell below it is read again) and ends where its zeros
//! begin; what stands behind the beginnings of lists is kept over one load, so that lists that begin alike are
//! convolved once. All of that is this program's own.
//!
//! The crate stands on `wasp_fixed` for numbers and on `convolution` for the definition of the equivalent load.
//! The layer above uses one contract: after [`run_list`] a [`Workbench`] stands behind all units of a list on the
//! load of a [`CurveShelf`], cell by cell as `convolution` defines it, whatever was kept before.
//!
//! Limits: 65,536 cells, [`MAX_UNITS`] units, and a load that never rises. `with_room` alone takes memory, and
//! nothing else is refused.
#![tactic(auto)]

mod kept;
mod lists;
mod share;
mod shelf;
mod shift;
mod stored;
mod tail;
mod turn;
mod workbench;

pub use lists::run_list;
pub use shelf::CurveShelf;
pub use shift::never_rises;
pub use stored::StoredCurve;
pub use tail::Tail;
pub use turn::{MAX_UNITS, Turn};
pub use workbench::Workbench;
