//! How a Set writes objects (RFC 4188, RFC 4318): rows of tables.
ghost use Rattle.std.specs.Prelude.{◌≡◌};
ghost use Rattle.setphase_core.specs.Writing.{writable_scalar, writable_column};

use rstp_core::{BridgeKey, PortKey};
use setphase_core::{IntegerTarget, Target, Writable};

/// A scalar writes this setting of the bridge, and takes the INTEGERs from the least to the most
/// that are multiples of the step.
pub fn writable_scalar(key: BridgeKey, least: u32, most: u32, step: u32) -> Option<Writable>
    ensures { result ≡ writable_scalar key least most step }
{
    Some(Writable::Integer(IntegerTarget {
        target: Target::Bridge(key),
        least,
        most,
        step,
    }))
}

/// A column writes this setting of its port, and takes the INTEGERs from the least to the most that
/// are multiples of the step.
pub fn writable_column(key: PortKey, least: u32, most: u32, step: u32) -> Option<Writable>
    ensures { result ≡ writable_column key least most step }
{
    Some(Writable::Integer(IntegerTarget {
        target: Target::Port(key),
        least,
        most,
        step,
    }))
}
