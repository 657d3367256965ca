//! The filtering database of a bridge (IEEE 802.1D-2004, 7.9): the addresses that it has learned,
//! where each was seen last, and how long ago; and static rows, which say by which ports frames to
//! an address may go.
//!
//! # Entry points
//! [`Fdb`] is seen as its rows by rising address and the most it may have: `learn`, `age`,
//! `flush_ports`, and without change `find`, `next_after`, `known`, `try_copy` and `try_rows`. Only
//! `learn` takes memory, for a new address that has a place, and the two copies, for their rows.
//! [`LearnedRow`] is one row, [`Learnt`] what `learn` answers, and [`MIN_AGING_TIME`] to
//! [`MAX_AGING_TIME`] the aging time in seconds.
//!
//! [`StaticTable`] is seen as its rows by rising index and for how many rows it is sure to have
//! memory: `put`, `remove`, `keep_made`, `reserve`, `hold`, and without change `row`, `rows_of`,
//! `next_made`, `len`, `is_empty`, `places`, `known`, `try_copy` and `try_rows`. Only `reserve` and the two
//! copies take memory. [`StaticRow`] is one row, of a [`StaticIndex`]. [`PortSet`] is a set of at
//! most [`MAX_SET_PORTS`] ports: `first`, `has`, `has_all`, `read` and `octets`, which are a bit for
//! each port in at most [`SET_OCTETS`] octets, and [`has_other_port`] finds a bit of no port.
//!
//! # Definitions
//! `specs/Rows.antt`: filters of the whole list; `specs/Learning.antt`: what learning answers and
//! leaves; `specs/Table.antt`: what holds of every table; `specs/Seen.antt`: how it is kept;
//! `specs/Places.antt`: where an address stands among rows by rising address. `specs/Statics.antt`:
//! static rows as a finite map, and the table; `specs/StaticPlaces.antt` and
//! `specs/StaticsInside.antt`: how it is kept; `specs/PortSets.antt`: sets of ports, and octets.
//!
//! # Laws
//! In [`laws`]: the bounds of the aging time and of sets of ports. Sets of ports are read as they
//! were written. Static rows are a finite map, and stay in order, and the next made row is the
//! lowest. On `known` and `next_after`: the table rises, each address is six octets, and the table
//! is young and within its limit.
//!
//! # Not claimed
//! That a growth succeeds. How long a call takes: each address is kept with the tick at which it
//! was learned, and the table with a lower bound of these ticks. A second touches no address,
//! unless that bound says that one may be old enough to go; the bound is then made anew.
#![tactic(auto)]

mod fdb;
pub mod laws;
mod learnt;
mod port_set;
mod row;
mod seen;
mod sightings;
mod static_row;
mod static_rows;
mod static_table;

pub use fdb::Fdb;
pub use learnt::Learnt;
pub use port_set::{MAX_SET_PORTS, PortSet, SET_OCTETS, has_other_port};
pub use row::{LearnedRow, MAX_AGING_TIME, MIN_AGING_TIME};
pub use static_row::{StaticIndex, StaticRow};
pub use static_table::StaticTable;
