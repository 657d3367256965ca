//! Sizes and ranges of what stands in the tables.

/// The most octets of a name: SnmpAdminString (SIZE(1..32)) of RFC 3415.
pub const MAX_NAME: usize = 32;

/// The most octets of a mask: vacmViewTreeFamilyMask, OCTET STRING (SIZE (0..16)).
pub const MAX_MASK: usize = 16;

/// The most of a family's view name and subtree together, in octets and sub-identifiers, so that
/// the name of the row's own instance has at most 128 sub-identifiers.
pub const MAX_FAMILY: usize = 114;

/// The greatest security model: SnmpSecurityModel, INTEGER (0..2147483647), of RFC 3411.
pub const MAX_MODEL: u32 = 2147483647;
