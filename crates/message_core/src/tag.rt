//! The tags of a message and its values, one octet each (X.690, 8.1.2; the application tags: RFC
//! 2578, section 2, with the types in 7.1; RFC 3416, section 3).

/// INTEGER (X.690, 8.3), the universal tag 2.
pub const INTEGER: u8 = 0x02;

/// OCTET STRING (X.690, 8.7), the universal tag 4.
pub const OCTET_STRING: u8 = 0x04;

/// NULL (X.690, 8.8), the universal tag 5.
pub const NULL: u8 = 0x05;

/// OBJECT IDENTIFIER (X.690, 8.19), the universal tag 6.
pub const OBJECT_IDENTIFIER: u8 = 0x06;

/// SEQUENCE (X.690, 8.9), the universal tag 16, constructed.
pub const SEQUENCE: u8 = 0x30;

/// IpAddress (RFC 2578, 7.1.5), the application tag 0.
pub const IP_ADDRESS: u8 = 0x40;

/// Counter32 (RFC 2578, 7.1.6), the application tag 1.
pub const COUNTER32: u8 = 0x41;

/// Gauge32 (RFC 2578, 7.1.7), the application tag 2. Unsigned32 has the same one.
pub const GAUGE32: u8 = 0x42;

/// TimeTicks (RFC 2578, 7.1.8), the application tag 3.
pub const TIME_TICKS: u8 = 0x43;

/// Opaque (RFC 2578, 7.1.9), the application tag 4.
pub const OPAQUE: u8 = 0x44;

/// Counter64 (RFC 2578, 7.1.10), the application tag 6.
pub const COUNTER64: u8 = 0x46;

/// The exception noSuchObject (RFC 3416, section 3), the context tag 0.
pub const NO_SUCH_OBJECT: u8 = 0x80;

/// The exception noSuchInstance (RFC 3416, section 3), the context tag 1.
pub const NO_SUCH_INSTANCE: u8 = 0x81;

/// The exception endOfMibView (RFC 3416, section 3), the context tag 2.
pub const END_OF_MIB_VIEW: u8 = 0x82;

/// The PDU type GetRequest (RFC 3416, section 3), the context tag 0, constructed.
pub const GET_REQUEST: u8 = 0xA0;

/// The PDU type GetNextRequest, the context tag 1, constructed.
pub const GET_NEXT_REQUEST: u8 = 0xA1;

/// The PDU type Response, the context tag 2, constructed.
pub const RESPONSE: u8 = 0xA2;

/// The PDU type SetRequest, the context tag 3, constructed.
pub const SET_REQUEST: u8 = 0xA3;

/// The PDU type GetBulkRequest, the context tag 5, constructed.
pub const GET_BULK_REQUEST: u8 = 0xA5;
