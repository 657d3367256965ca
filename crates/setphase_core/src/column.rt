//! What the managed objects of BRIDGE-MIB (RFC 4188), RSTP-MIB (RFC 4318) and
//! SNMP-VIEW-BASED-ACM-MIB (RFC 3415) show, by the descriptors of those modules.

/// The scalars of dot1dBase (RFC 4188).
#[derive(Clone, Copy, Debug, PartialEq, Eq)]
pub enum Base {
    /// dot1dBaseBridgeAddress
    BridgeAddress,
    /// dot1dBaseNumPorts
    NumPorts,
    /// dot1dBaseType
    Type,
}

/// The columns of dot1dBasePortTable (RFC 4188).
#[derive(Clone, Copy, Debug, PartialEq, Eq)]
pub enum BasePort {
    /// dot1dBasePort
    Port,
    /// dot1dBasePortIfIndex
    IfIndex,
    /// dot1dBasePortCircuit
    Circuit,
    /// dot1dBasePortDelayExceededDiscards
    DelayExceededDiscards,
    /// dot1dBasePortMtuExceededDiscards
    MtuExceededDiscards,
}

/// The scalars of dot1dStp (RFC 4188).
#[derive(Clone, Copy, Debug, PartialEq, Eq)]
pub enum Stp {
    /// dot1dStpProtocolSpecification
    ProtocolSpecification,
    /// dot1dStpPriority
    Priority,
    /// dot1dStpTimeSinceTopologyChange
    TimeSinceTopologyChange,
    /// dot1dStpTopChanges
    TopChanges,
    /// dot1dStpDesignatedRoot
    DesignatedRoot,
    /// dot1dStpRootCost
    RootCost,
    /// dot1dStpRootPort
    RootPort,
    /// dot1dStpMaxAge
    MaxAge,
    /// dot1dStpHelloTime
    HelloTime,
    /// dot1dStpHoldTime
    HoldTime,
    /// dot1dStpForwardDelay
    ForwardDelay,
    /// dot1dStpBridgeMaxAge
    BridgeMaxAge,
    /// dot1dStpBridgeHelloTime
    BridgeHelloTime,
    /// dot1dStpBridgeForwardDelay
    BridgeForwardDelay,
}

/// The columns of dot1dStpPortTable (RFC 4188).
#[derive(Clone, Copy, Debug, PartialEq, Eq)]
pub enum StpPort {
    /// dot1dStpPort
    Port,
    /// dot1dStpPortPriority
    Priority,
    /// dot1dStpPortState
    State,
    /// dot1dStpPortEnable
    Enable,
    /// dot1dStpPortPathCost
    PathCost,
    /// dot1dStpPortDesignatedRoot
    DesignatedRoot,
    /// dot1dStpPortDesignatedCost
    DesignatedCost,
    /// dot1dStpPortDesignatedBridge
    DesignatedBridge,
    /// dot1dStpPortDesignatedPort
    DesignatedPort,
    /// dot1dStpPortForwardTransitions
    ForwardTransitions,
    /// dot1dStpPortPathCost32
    PathCost32,
}

/// The scalars of RSTP-MIB (RFC 4318).
#[derive(Clone, Copy, Debug, PartialEq, Eq)]
pub enum Rapid {
    /// dot1dStpVersion
    Version,
    /// dot1dStpTxHoldCount
    TxHoldCount,
}

/// The columns of dot1dStpExtPortTable (RFC 4318).
#[derive(Clone, Copy, Debug, PartialEq, Eq)]
pub enum ExtPort {
    /// dot1dStpPortProtocolMigration
    ProtocolMigration,
    /// dot1dStpPortAdminEdgePort
    AdminEdgePort,
    /// dot1dStpPortOperEdgePort
    OperEdgePort,
    /// dot1dStpPortAdminPointToPoint
    AdminPointToPoint,
    /// dot1dStpPortOperPointToPoint
    OperPointToPoint,
    /// dot1dStpPortAdminPathCost
    AdminPathCost,
}

/// The scalars of dot1dTp (RFC 4188).
#[derive(Clone, Copy, Debug, PartialEq, Eq)]
pub enum Tp {
    /// dot1dTpLearnedEntryDiscards
    LearnedEntryDiscards,
    /// dot1dTpAgingTime
    AgingTime,
}

/// The columns of dot1dTpFdbTable (RFC 4188).
#[derive(Clone, Copy, Debug, PartialEq, Eq)]
pub enum TpFdb {
    /// dot1dTpFdbAddress
    Address,
    /// dot1dTpFdbPort
    Port,
    /// dot1dTpFdbStatus
    Status,
}

/// The columns of dot1dTpPortTable (RFC 4188).
#[derive(Clone, Copy, Debug, PartialEq, Eq)]
pub enum TpPort {
    /// dot1dTpPort
    Port,
    /// dot1dTpPortMaxInfo
    MaxInfo,
    /// dot1dTpPortInFrames
    InFrames,
    /// dot1dTpPortOutFrames
    OutFrames,
    /// dot1dTpPortInDiscards
    InDiscards,
}

/// The columns of dot1dStaticTable (RFC 4188).
#[derive(Clone, Copy, Debug, PartialEq, Eq)]
pub enum Static {
    /// dot1dStaticAddress
    Address,
    /// dot1dStaticReceivePort
    ReceivePort,
    /// dot1dStaticAllowedToGoTo
    AllowedToGoTo,
    /// dot1dStaticStatus
    Status,
}

/// The columns of vacmViewTreeFamilyTable that are shown (RFC 3415).
#[derive(Clone, Copy, Debug, PartialEq, Eq)]
pub enum Family {
    /// vacmViewTreeFamilyMask
    Mask,
    /// vacmViewTreeFamilyType
    Type,
}

/// What an object shows.
#[derive(Clone, Copy, Debug, PartialEq, Eq)]
pub enum Column {
    /// A scalar of dot1dBase.
    Base(Base),
    /// A column of dot1dBasePortTable.
    BasePort(BasePort),
    /// A scalar of dot1dStp.
    Stp(Stp),
    /// A column of dot1dStpPortTable.
    StpPort(StpPort),
    /// A scalar of RSTP-MIB.
    Rapid(Rapid),
    /// A column of dot1dStpExtPortTable.
    ExtPort(ExtPort),
    /// A scalar of dot1dTp.
    Tp(Tp),
    /// A column of dot1dTpFdbTable.
    TpFdb(TpFdb),
    /// A column of dot1dTpPortTable.
    TpPort(TpPort),
    /// A column of dot1dStaticTable.
    Static(Static),
    /// A column of vacmViewTreeFamilyTable.
    Family(Family),
}
