//! The managed objects of SNMP-VIEW-BASED-ACM-MIB (RFC 3415) that show the policy's families.
//!
//! # Entry points
//! [`FamilyColumn`]: vacmViewTreeFamilyMask and vacmViewTreeFamilyType, by [`FamilyDescriptor`]. It
//! is made by `new` of a descriptor, and is a `MibObject`: it shows its row, whatever was asked of
//! it before. A Set writes both: the next request is judged by what it gives.
//!
//! # Definitions
//! What each object shows stands in `setphase_core`: `specs/Columns.antt`, the objects' names in
//! `specs/Names.antt`, how a Set writes it in `specs/Writing.antt`; the index of a family row in
//! `vacm_core`: `specs/FamilyIndex.antt`; an object as plain data in `bridge_mib`: `specs/WritableObject.antt`.
//!
//! # Laws
//! None: each object is its row, and what it has reserved.
//!
//! # Not claimed
//! That the other tables and columns of the module are shown.
#![tactic(auto)]

mod families;

pub use families::{FamilyColumn, FamilyDescriptor};
