//! What each object reserves of its 64 places.
use crate::worlds::{port, seen_world_of};
use bridge_mib::Steady;
use message_core::Value;
use object_list::Object;
use setphase_core::{
    Column, ExtPort, Family, MibObject, Rapid, SetFault, Static, Stp, StpPort, Tp, World,
};
use std::alloc::Global;
use std::test::Fail;

// An object that a Set writes, the index of an instance, an INTEGER that it takes, and one that it
// does not.
type WriteCase = (Column, &'static [u32], i32, i32);

// The index of a static row: frames to 02-00-00-00-01-01 by any port.
const ROW: [u32; 7] = [2, 0, 0, 0, 1, 1, 0];

// The index of the family of the view `all` (RFC 3415): each part behind its length.
const FAMILY: [u32; 12] = [3, 97, 108, 108, 7, 1, 3, 6, 1, 2, 1, 17];

// The objects that take INTEGERs of a Set, by their names (RFC 4188, RFC 4318, RFC 3415).
const WRITTEN: [WriteCase; 17] = [
    (Column::Stp(Stp::Priority), &[0], 61_440, 4_095),
    (Column::Stp(Stp::BridgeMaxAge), &[0], 600, 500),
    (Column::Stp(Stp::BridgeHelloTime), &[0], 1_000, 1_100),
    (Column::Stp(Stp::BridgeForwardDelay), &[0], 3_000, 3_100),
    (Column::StpPort(StpPort::Priority), &[1], 240, 8),
    (Column::StpPort(StpPort::Enable), &[1], 2, 3),
    (Column::StpPort(StpPort::PathCost), &[1], 65_535, 65_536),
    (Column::StpPort(StpPort::PathCost32), &[1], 200_000_000, 0),
    (Column::Rapid(Rapid::Version), &[0], 2, 1),
    (Column::Rapid(Rapid::TxHoldCount), &[0], 1, 0),
    (Column::ExtPort(ExtPort::ProtocolMigration), &[1], 1, 3),
    (Column::ExtPort(ExtPort::AdminEdgePort), &[1], 2, 0),
    (Column::ExtPort(ExtPort::AdminPointToPoint), &[1], 0, 3),
    (Column::ExtPort(ExtPort::AdminPathCost), &[1], 0, -1),
    (Column::Tp(Tp::AgingTime), &[0], 1_000_000, 9),
    (Column::Static(Static::Status), &ROW, 3, 4),
    (Column::Family(Family::Type), &FAMILY, 2, 3),
];

// A world of one port, whose policy has one family.
fn one_port(alloc: Global) -> Result<World, Fail> {
    seen_world_of(alloc, &[port(1)])
}

// The object of a column, of which a test of an instance took all 64 places.
fn filled(world: &World, column: Column, at: &[u32], right: i32) -> Result<Object<Steady>, Fail> {
    let mut object = Object::over(column, &mut Some(Steady));
    for _ in 0..64 {
        if object.test(world, at, &Value::Integer(right)).is_err() {
            return Err(Fail::from("a place"));
        }
    }
    Ok(object)
}

// The faults of tests that find all places taken, and how many slots are reserved then. All but the
// first keep their fault: another type, a value that the object does not take, an instance that
// there is not (port 2, a scalar's at .2, and a row of such an index).
fn faults(world: &World, written: WriteCase) -> Result<([Option<SetFault>; 4], usize), Fail> {
    let (column, at, right, wrong) = written;
    let mut object = filled(world, column, at, right)?;
    let faults = [
        object.test(world, at, &Value::Integer(right)).err(),
        object.test(world, at, &Value::Gauge32(1)).err(),
        object.test(world, at, &Value::Integer(wrong)).err(),
        object.test(world, &[2], &Value::Integer(right)).err(),
    ];
    Ok((faults, object.held()))
}

const FAULTS: [Option<SetFault>; 4] = [
    Some(SetFault::ResourceUnavailable),
    Some(SetFault::WrongType),
    Some(SetFault::WrongValue),
    Some(SetFault::NoCreation),
];

#[test]
fn has_64_places_and_reports_other_faults(rt: HostRuntime) -> Result<(), Fail> {
    let world = one_port(rt.alloc())?;
    for written in WRITTEN {
        assert_eq!(rt; faults(&world, written)?, (FAULTS, 64), "{:?}", written.0);
    }
    Ok(())
}
