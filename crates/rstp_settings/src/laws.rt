//! Laws of the settings as a finite map. Each function does nothing: its contract is the law.
ghost use Rattle.std.specs.Prelude.{◌≡◌, ◌≢◌, ℕ, if◌then◌else◌, length};
ghost use Rattle.rstp_settings.specs.Table.{Table, get, put, HasKey, same_key};
ghost use Rattle.rstp_settings.specs.declared.key.Key.{Key};

use crate::key::{
    EDGE_FALSE, EDGE_TRUE, MAX_AGING, MIGRATION_CHECK, MIN_AGING, POINT_TO_POINT_AUTO,
    POINT_TO_POINT_FALSE, POINT_TO_POINT_TRUE, PORT_DISABLED, PORT_ENABLED, VERSION_RSTP,
    VERSION_STP,
};
use crate::settings::MAX_PORTS;

/// A setting has the value that it was last given, and each other setting the one it had.
pub fn get_after_put()
    ensures { (t : Table) (k l : Key) (v : ℕ) → HasKey t k → HasKey t l
        → get (put t k v) l ≡ (if same_key k l then v else get t l) }
{}

/// A put of the old value restores all settings.
pub fn undo_restores()
    ensures { (t : Table) (k : Key) (v : ℕ) → HasKey t k → put (put t k v) k (get t k) ≡ t }
{}

/// Two settings of different keys may be put in either order.
pub fn puts_commute()
    ensures { (t : Table) (k l : Key) (v w : ℕ) → k ≢ l → HasKey t k → HasKey t l
        → put (put t k v) l w ≡ put (put t l w) k v }
{}

/// Settings of equally many ports that agree on every key are equal.
pub fn equal_on_every_key()
    ensures { (t u : Table) → length t.ports ≡ length u.ports
        → ((k : Key) → HasKey t k → get t k ≡ get u k) → t ≡ u }
{}

/// A bridge has at most 32 ports.
pub fn port_limit_is_32()
    ensures { MAX_PORTS ≡ 32 }
{}

/// Force protocol version is 0 for STP compatible and 2 for RSTP (IEEE 802.1D-2004 17.13.4; RFC
/// 4318 dot1dStpVersion). A port is enabled by 1 and disabled by 2 (RFC 4188 dot1dStpPortEnable). A
/// protocol migration check is asked for by 1, which is its TruthValue true (RFC 4318
/// dot1dStpPortProtocolMigration). Admin edge port is 1 for true and 2 for false
/// (dot1dStpPortAdminEdgePort). Admin point to point is 0 for forceTrue, 1 for forceFalse and 2 for
/// auto (dot1dStpPortAdminPointToPoint).
pub fn values_are_fixed()
    ensures version_stp { VERSION_STP ≡ 0 }
    ensures version_rstp { VERSION_RSTP ≡ 2 }
    ensures enabled { PORT_ENABLED ≡ 1 }
    ensures disabled { PORT_DISABLED ≡ 2 }
    ensures migration { MIGRATION_CHECK ≡ 1 }
    ensures edge_true { EDGE_TRUE ≡ 1 }
    ensures edge_false { EDGE_FALSE ≡ 2 }
    ensures force_true { POINT_TO_POINT_TRUE ≡ 0 }
    ensures force_false { POINT_TO_POINT_FALSE ≡ 1 }
    ensures auto { POINT_TO_POINT_AUTO ≡ 2 }
{}

/// The ageing time is 10 to 1000000 seconds (IEEE 802.1D-2004 Table 7-5).
pub fn aging_is_bounded()
    ensures least { MIN_AGING ≡ 10 }
    ensures most { MAX_AGING ≡ 1000000 }
{}
