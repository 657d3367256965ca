//! Sets that write as many static rows as a Set has places for.
use crate::worlds::{port, seen_world_of};
use bridge_mib::Steady;
use message_core::{Binding, ErrorStatus, Octets, Value};
use object_list::Object;
use oid_core::Oid;
use setphase_core::{Column, Registry, SetOutcome, Static, World, are_named, run_set};
use std::alloc::Global;
use std::test::Fail;
use vacm_core::Name;

// A registry of the columns of a static row that a Set writes.
fn statics(alloc: Global) -> Result<Registry<Object<Steady>>, Fail> {
    let mut objects = Vec::new(alloc);
    for which in [Static::AllowedToGoTo, Static::Status] {
        objects.push(Object::over(Column::Static(which), &mut Some(Steady)))?;
    }
    if !are_named(objects.as_slice()) {
        return Err(Fail::from("a name"));
    }
    Ok(Registry::new(objects).ok().ok_or("a registry")?)
}

// The name of a column of the row of frames to the station of this number, by any port.
fn name_of(alloc: Global, column: u32, station: u8) -> Result<Oid, Fail> {
    let station = u32::from(station);
    let numbers = [
        1, 3, 6, 1, 2, 1, 17, 5, 1, 1, column, 2, 0, 0, 1, 0, station, 0,
    ];
    Ok(Oid::from_slice(alloc, &numbers).ok().ok_or("a name")?)
}

// Variables that make or remove the rows of so many stations, by status 3 or 2.
fn statuses(alloc: Global, stations: u8, status: i32) -> Result<Vec<Binding>, Fail> {
    let mut bindings = Vec::new(alloc);
    for station in 0..stations {
        let name = name_of(alloc, 4, station)?;
        let value = Value::Integer(status);
        bindings.push(Binding { name, value })?;
    }
    Ok(bindings)
}

// Variables that make the rows of so many stations, each behind one that has its frames go out by
// port 1.
fn rows(alloc: Global, stations: u8) -> Result<Vec<Binding>, Fail> {
    let mut bindings = Vec::new(alloc);
    for station in 0..stations {
        let name = name_of(alloc, 3, station)?;
        let value = Value::OctetString(Octets::from_slice(alloc, &[0x80])?);
        bindings.push(Binding { name, value })?;
        let name = name_of(alloc, 4, station)?;
        let value = Value::Integer(3);
        bindings.push(Binding { name, value })?;
    }
    Ok(bindings)
}

// How a Set ended: whether a setting changed, or its error-status and index.
#[derive(Clone, Copy, Debug, PartialEq, Eq)]
enum End {
    Done(bool),
    Refused(ErrorStatus, usize),
    Another,
}

// How a Set of these variables ends, how many static rows stand then, for how many there is sure to
// be memory, and how many slots are reserved.
fn ended(
    registry: &mut Registry<Object<Steady>>,
    world: &mut World,
    bindings: &[Binding],
) -> Result<(End, [usize; 3]), Fail> {
    let end = match run_set(registry, world, bindings, &Name::of("all"))? {
        SetOutcome::Done { changed } => End::Done(changed),
        SetOutcome::Refused(refusal) => End::Refused(refusal.status, refusal.index),
        SetOutcome::CommitFailed(_) | SetOutcome::UndoFailed(..) => End::Another,
    };
    let bridge = &world.bridge;
    let counts = [
        bridge.made_statics(),
        bridge.static_places(),
        registry.held(),
    ];
    Ok((end, counts))
}

// A Set of 64 variables makes 64 rows, or 32 of some ports. A 65th finds no place. A Set of 64
// removes them all.
#[test]
fn writes_64_variables_of_static_rows(rt: HostRuntime) -> Result<(), Fail> {
    let alloc = rt.alloc();
    let mut world = seen_world_of(alloc, &[port(1), port(2)])?;
    let mut registry = statics(alloc)?;
    let sets = [
        (
            statuses(alloc, 65, 3)?,
            End::Refused(ErrorStatus::ResourceUnavailable, 65),
            0,
        ),
        (rows(alloc, 32)?, End::Done(true), 32),
        (statuses(alloc, 64, 3)?, End::Done(true), 64),
        (statuses(alloc, 64, 3)?, End::Done(false), 64),
        (statuses(alloc, 64, 2)?, End::Done(true), 0),
    ];
    for (bindings, end, made) in sets {
        assert_eq!(rt;
            ended(&mut registry, &mut world, &bindings)?,
            (end, [made, 0, 0])
        );
    }
    Ok(())
}
