//! The managed objects of BRIDGE-MIB (RFC 4188) that show a bridge, and by which a Set writes it.
//!
//! # Entry points
//! [`BaseScalar`], [`BasePortColumn`]: dot1dBase; [`StpScalar`], [`StpPortColumn`], [`PortEnable`]:
//! dot1dStp; [`TpScalar`], [`FdbColumn`], [`TpPortColumn`]: dot1dTp; [`StaticColumn`]: dot1dStatic. Each is made by `new` of a
//! descriptor, and is a `MibObject`: it shows its row, whatever was asked of it before. All but
//! `PortEnable` are [`Described`] by a [`Descriptor`], which says what the object is called, what
//! it shows and how it is written. `PortEnable` is made of a [`LineDriver`] in place of a
//! descriptor, and calls it with what the line of a port is to be before it writes the setting, whatever
//! the line is already; [`Steady`] never fails and takes no plans, and [`Planned`] fails by plan.
//!
//! # Definitions
//! What each object shows stands in `setphase_core`: `specs/Columns.antt`, the objects' names in
//! `specs/Names.antt`, and how a Set writes each in `specs/Writing.antt`. Here
//! `specs/WritableObject.antt`: an object that may be written as plain data; `specs/Line.antt`: the same
//! over a driver, and a driver that fails by plan. [`values`] has the values of all modules, which
//! `rstp_mib` and `vacm_mib` use too, and [`written`] the rows of settings of bridge and ports.
//!
//! # Laws
//! None: each object is its row, what it has reserved, how often its driver has failed, and what is
//! left of its driver's plan.
//!
//! # Not claimed
//! That a world's settings are in force. That a driver switches a line.
#![tactic(auto)]

mod base;
mod described;
mod fdb;
mod line;
mod port_enable;
mod statics;
mod stp;
mod tp;
pub mod values;
pub mod written;

pub use base::{BasePortColumn, BaseScalar};
pub use described::{Described, Descriptor};
pub use fdb::FdbColumn;
pub use line::{LineDriver, Planned, Steady};
pub use port_enable::PortEnable;
pub use statics::StaticColumn;
pub use stp::{StpPortColumn, StpScalar};
pub use tp::{TpPortColumn, TpScalar};
