//! The managed objects of a bridge and its policy in the order of their names (RFC 4188, RFC 4318,
//! RFC 3415), one type for all of them.
//!
//! # Entry points
//! [`ColumnDescriptor`]: the descriptor of any column, which does what that of the column's module
//! does; [`PlainObject`]: the managed object of it, without a device. [`Object`]: a plain object, or
//! dot1dStpPortEnable over a driver, by `of` a column, or by `over` a column and a driver, which
//! dot1dStpPortEnable takes. [`COLUMNS`]: the columns of the 57 objects in the order of their names;
//! [`objects`]: the objects themselves, dot1dStpPortEnable over a driver, of which `Registry::new`
//! makes a registry. [`ENABLE`] is the place of dot1dStpPortEnable among them, counted from 0.
//!
//! # Definitions
//! `specs/Objects.antt`: the column of an object, and what it is to a registry.
//!
//! # Laws
//! On [`objects`]: their rows are those of all objects, they have reserved nothing,
//! dot1dStpPortEnable is over the driver, and they make a registry.
//!
//! # Not claimed
//! That there is memory for the list.
#![tactic(auto)]

mod columns;
mod descriptor;
mod object;

pub use columns::{COLUMNS, ENABLE, objects};
pub use descriptor::{ColumnDescriptor, PlainObject};
pub use object::Object;
