//! Priority vectors, identifiers and times compared (IEEE 802.1D-2004 9.2.5, 17.5, 17.6).
ghost use Rattle.std.specs.Prelude.{◌≡◌};
ghost use Rattle.std.specs.Ordering.{is_lt};
ghost use Rattle.rstp_rules.specs.Vectors.{port_number, vector_cmp, same_vector, same_sender, same_times, info_time};

use frame_core::{PriorityVector, Times};

/// The number in a port identifier (IEEE 802.1D-2004 9.2.7): its low twelve bits.
pub fn number_of_port(id: u16) -> u16
    ensures { result ≡ port_number id }
{
    id % 4096
}

/// Whether the first vector is better than the other (17.6).
pub(crate) fn is_better(vector: &PriorityVector, other: &PriorityVector) -> bool
    ensures { result ≡ is_lt (vector_cmp vector.now other.now) }
{
    vector.cmp(other).is_lt()
}

/// Whether two vectors are equal (17.5).
pub(crate) fn is_same_vector(vector: &PriorityVector, other: &PriorityVector) -> bool
    ensures { result ≡ same_vector vector.now other.now }
{
    *vector == *other
}

/// Whether the same port sent both vectors: by the address in the bridge identifier and the number
/// in the port identifier (17.6).
pub(crate) fn is_same_sender(vector: &PriorityVector, other: &PriorityVector) -> bool
    ensures { result ≡ same_sender vector.now other.now }
{
    vector.bridge.address.is_same(other.bridge.address)
        && number_of_port(vector.port) == number_of_port(other.port)
}

/// Whether all four times are the same.
pub(crate) fn is_same_times(times: &Times, other: &Times) -> bool
    ensures { result ≡ same_times times.now other.now }
{
    *times == *other
}

/// For how many ticks a vector with these times is kept (17.21.23).
pub(crate) fn info_time_of(times: &Times) -> u16
    ensures { result ≡ info_time times.now }
{
    if u32::from(times.message_age) + 256 > u32::from(times.max_age) {
        0
    } else {
        (3 * u32::from(times.hello)).div_ceil(256) as u16
    }
}
