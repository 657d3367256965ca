//! What is warned of in a configuration that is right: what cannot work, or is seldom meant.
ghost use Rattle.std.specs.Prelude.{◌≡◌};
ghost use Rattle.configuration.specs.Warnings.{table_of, all_row_warnings, all_port_checks};

use community_core::PolicyTable;

/// What a row of a policy is warned of. SNMPv2c asks under the security model 2 and at the level 1,
/// noAuthNoPriv (RFC 3584, section 5.2.1).
#[derive(Clone, Copy, Debug, PartialEq, Eq)]
pub enum RowWarning {
    /// The context of a community is not empty and stands in no row of `contexts`: no request of the
    /// community is answered.
    UnknownContext,
    /// The security name of a community is in no group under the model 2.
    NoGroup,
    /// The model of a group row is not 2.
    GroupModel,
    /// The group of a group row has no access row.
    NoAccess,
    /// The model of an access row is neither 0, any, nor 2.
    AccessModel,
    /// The level of an access row is above 1.
    AccessLevel,
    /// The group of an access row stands in no group row.
    NoMember,
    /// The view to read by of an access row is not empty and has no family row.
    NoReadFamily,
    /// The view to write by of an access row is not empty and has no family row.
    NoWriteFamily,
    /// The view of a family row stands in no access row.
    UnusedView,
}

/// What a port is warned of. Numbers of rows count from 0. Two addresses of the port number 0 are two
/// sockets.
#[derive(Clone, Copy, Debug, PartialEq, Eq)]
pub enum PortWarning {
    /// The port of this number has the same `ifindex`.
    SameIfindex(usize),
    /// The port of this number has the same `listen`.
    SameListen(usize),
    /// The port of this number has the same `peer`.
    SamePeer(usize),
    /// `listen` is the address that requests come in at.
    ListenIsSnmp,
    /// `peer` has the port number 0, to which nothing can be sent.
    PeerPortZero,
}

/// A check of a port.
#[derive(Clone, Copy, Debug, PartialEq, Eq)]
pub enum PortCheck {
    /// Whether its `ifindex` is that of a port above.
    Ifindex,
    /// Whether its `listen` is.
    Listen,
    /// Whether its `peer` is.
    Peer,
    /// Whether its `listen` is the address of requests.
    Snmp,
    /// Whether its `peer` has the port number 0.
    PeerPort,
}

/// What is warned of in a configuration that is right. Numbers of rows count from 0, as those of a
/// fault do.
#[derive(Clone, Copy, Debug, PartialEq, Eq)]
pub enum Warning {
    /// There is no community: nobody is answered.
    NoCommunity,
    /// What the row of this number is warned of, of the table that [`RowWarning::table`] gives.
    Row(RowWarning, usize),
    /// What the port of this number is warned of.
    Port(PortWarning, usize),
}

/// What a row may be warned of, in the order in which it is reported.
pub const ROW_WARNINGS: [RowWarning; 10] = [
    RowWarning::UnknownContext,
    RowWarning::NoGroup,
    RowWarning::GroupModel,
    RowWarning::NoAccess,
    RowWarning::AccessModel,
    RowWarning::AccessLevel,
    RowWarning::NoMember,
    RowWarning::NoReadFamily,
    RowWarning::NoWriteFamily,
    RowWarning::UnusedView,
];

/// The checks of a port, in the order in which they are reported.
pub const PORT_CHECKS: [PortCheck; 5] = [
    PortCheck::Ifindex,
    PortCheck::Listen,
    PortCheck::Peer,
    PortCheck::Snmp,
    PortCheck::PeerPort,
];

impl RowWarning {
    ghost use Rattle.configuration.specs.Warnings.{table_of};

    /// The table that the warning is of.
    pub fn table(self) -> PolicyTable
        ensures { result ≡ table_of self }
    {
        match self {
            RowWarning::UnknownContext | RowWarning::NoGroup => PolicyTable::Communities,
            RowWarning::GroupModel | RowWarning::NoAccess => PolicyTable::Groups,
            RowWarning::AccessModel
            | RowWarning::AccessLevel
            | RowWarning::NoMember
            | RowWarning::NoReadFamily
            | RowWarning::NoWriteFamily => PolicyTable::Access,
            RowWarning::UnusedView => PolicyTable::Families,
        }
    }
}
