//! What a BPDU says of a topology change (IEEE 802.1D-2004 9.3, 17.21.17).
ghost use Rattle.std.specs.Prelude.{◌≡◌};
ghost use Rattle.rstp_rules.specs.Bpdus.{signals_change};

use frame_core::Bpdu;

/// Whether a message signals a topology change: by its flag, or as a notification (9.3, 17.21.17).
pub fn has_topology_change(bpdu: &Bpdu) -> bool
    ensures { result ≡ signals_change bpdu.now }
{
    match bpdu {
        Bpdu::TopologyChange => true,
        Bpdu::Config(message) => message.topology_change,
        Bpdu::Rapid(message) => message.topology_change,
    }
}
