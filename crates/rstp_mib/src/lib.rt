//! The managed objects of RSTP-MIB (RFC 4318) that show a bridge, and by which a Set writes it.
//!
//! # Entry points
//! [`RstpScalar`]: dot1dStpVersion and dot1dStpTxHoldCount, by [`RapidDescriptor`];
//! [`ExtPortColumn`]: dot1dStpExtPortTable, by [`ExtPortDescriptor`]. Each is made by `new` of a
//! descriptor, and is a `MibObject`: it shows its row, whatever was asked of it before.
//!
//! # Definitions
//! What each object shows stands in `setphase_core`: `specs/Columns.antt`, the objects' names in
//! `specs/Names.antt`, and how a Set writes each in `specs/Writing.antt`; an object that may be
//! written as plain data stands in `bridge_mib`: `specs/WritableObject.antt`.
//!
//! # Laws
//! None: each object is its row, and what it has reserved.
//!
//! # Not claimed
//! That a world's settings are in force.
#![tactic(auto)]

mod ports;
mod scalars;

pub use ports::{ExtPortColumn, ExtPortDescriptor};
pub use scalars::{RapidDescriptor, RstpScalar};
