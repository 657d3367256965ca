//! The list of objects.
ghost use Rattle.std.specs.Prelude.{◌≡◌, [], slice_get, None, Some, IfOk};
ghost use Rattle.setphase_core.specs.Names.{bridge_rows};
ghost use Rattle.setphase_core.specs.Registry.{rows_of, first_fault, held_count, AreNamed};
ghost use Rattle.object_list.specs.Objects.{states_of};

use crate::object::Object;
use bridge_mib::{LineDriver, PortEnable};
use setphase_core::laws::objects_are_accepted;
use setphase_core::{
    Base, BasePort, Column, ExtPort, Family, Rapid, Static, Stp, StpPort, Tp, TpFdb, TpPort,
};
use std::alloc::{AllocError, Global};

/// What the objects of a bridge show, in the order of the objects' names (RFC 4188, RFC 4318, RFC
/// 3415).
pub const COLUMNS: [Column; 57] = [
    Column::Base(Base::BridgeAddress),
    Column::Base(Base::NumPorts),
    Column::Base(Base::Type),
    Column::BasePort(BasePort::Port),
    Column::BasePort(BasePort::IfIndex),
    Column::BasePort(BasePort::Circuit),
    Column::BasePort(BasePort::DelayExceededDiscards),
    Column::BasePort(BasePort::MtuExceededDiscards),
    Column::Stp(Stp::ProtocolSpecification),
    Column::Stp(Stp::Priority),
    Column::Stp(Stp::TimeSinceTopologyChange),
    Column::Stp(Stp::TopChanges),
    Column::Stp(Stp::DesignatedRoot),
    Column::Stp(Stp::RootCost),
    Column::Stp(Stp::RootPort),
    Column::Stp(Stp::MaxAge),
    Column::Stp(Stp::HelloTime),
    Column::Stp(Stp::HoldTime),
    Column::Stp(Stp::ForwardDelay),
    Column::Stp(Stp::BridgeMaxAge),
    Column::Stp(Stp::BridgeHelloTime),
    Column::Stp(Stp::BridgeForwardDelay),
    Column::StpPort(StpPort::Port),
    Column::StpPort(StpPort::Priority),
    Column::StpPort(StpPort::State),
    Column::StpPort(StpPort::Enable),
    Column::StpPort(StpPort::PathCost),
    Column::StpPort(StpPort::DesignatedRoot),
    Column::StpPort(StpPort::DesignatedCost),
    Column::StpPort(StpPort::DesignatedBridge),
    Column::StpPort(StpPort::DesignatedPort),
    Column::StpPort(StpPort::ForwardTransitions),
    Column::StpPort(StpPort::PathCost32),
    Column::Rapid(Rapid::Version),
    Column::Rapid(Rapid::TxHoldCount),
    Column::ExtPort(ExtPort::ProtocolMigration),
    Column::ExtPort(ExtPort::AdminEdgePort),
    Column::ExtPort(ExtPort::OperEdgePort),
    Column::ExtPort(ExtPort::AdminPointToPoint),
    Column::ExtPort(ExtPort::OperPointToPoint),
    Column::ExtPort(ExtPort::AdminPathCost),
    Column::Tp(Tp::LearnedEntryDiscards),
    Column::Tp(Tp::AgingTime),
    Column::TpFdb(TpFdb::Address),
    Column::TpFdb(TpFdb::Port),
    Column::TpFdb(TpFdb::Status),
    Column::TpPort(TpPort::Port),
    Column::TpPort(TpPort::MaxInfo),
    Column::TpPort(TpPort::InFrames),
    Column::TpPort(TpPort::OutFrames),
    Column::TpPort(TpPort::InDiscards),
    Column::Static(Static::Address),
    Column::Static(Static::ReceivePort),
    Column::Static(Static::AllowedToGoTo),
    Column::Static(Static::Status),
    Column::Family(Family::Mask),
    Column::Family(Family::Type),
];

/// The place of dot1dStpPortEnable in [`COLUMNS`], counted from 0.
pub const ENABLE: usize = 25;

/// The objects of a bridge in the order of their names, dot1dStpPortEnable over this driver.
///
/// # Errors
/// `AllocError` where there is no memory for the list.
pub fn objects<L: LineDriver>(alloc: Global, driver: L) -> Result<Vec<Object<L>>, AllocError>
    ensures all { IfOk result (λ objects.
        rows_of (states_of L.failures L.plan_left objects.items) ≡ bridge_rows) }
    ensures idle { IfOk result (λ objects.
        held_count (states_of L.failures L.plan_left objects.items) ≡ 0) }
    ensures driven { IfOk result (λ objects. slice_get objects.items ENABLE
        ≡ Some (Object.Enable (record { driver = driver; reserved = [] }))) }
    // So they make a registry.
    ensures named { IfOk result (λ objects.
        AreNamed (rows_of (states_of L.failures L.plan_left objects.items))) }
    ensures accepted { IfOk result (λ objects.
        first_fault (rows_of (states_of L.failures L.plan_left objects.items)) ≡ None) }
{
    let mut objects = Vec::new(alloc);
    for column in COLUMNS {
        objects.push(Object::of(column))?;
    }
    objects[ENABLE] = Object::Enable(PortEnable::new(driver));
    objects_are_accepted();
    Ok(objects)
}
