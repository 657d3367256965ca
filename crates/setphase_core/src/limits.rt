//! The limits of objects and of what they show.

/// The most numbers that an index has: those of a view's name and of a subtree, at most 114, with a
/// length before each (RFC 3415 vacmViewTreeFamilyTable, RFC 2578 7.7).
pub const MAX_INDEX: usize = 116;

/// The most slots that an object reserves for one Set.
pub const MAX_SLOTS: usize = 64;

/// The most variables of one Set.
pub const MAX_VARIABLES: usize = 64;

/// The places for what is staged of a Set of at most so many variables. Most Sets have one variable or
/// a few, and each place takes time where a Set begins, used or not.
pub(crate) const FEW_VARIABLES: usize = 8;

/// The greatest cost of a path that is shown: the greatest INTEGER (RFC 2578, 7.1.1).
pub const MAX_COST: u32 = 2_147_483_647;

/// The greatest dot1dStpPortPathCost (RFC 4188).
pub const MAX_PATH_COST: u32 = 65_535;

/// What dot1dTpPortMaxInfo shows, for every port (RFC 4188).
pub const MAX_INFO: u32 = 1_500;

/// The most static rows that may be made (RFC 4188 dot1dStaticTable; a limit of this profile).
pub const MAX_STATIC_ROWS: usize = 256;

/// The most octets of a dot1dStaticAllowedToGoTo (RFC 4188, SIZE (0..512)).
pub const MAX_PORT_OCTETS: usize = 512;
