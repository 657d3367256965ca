//! The longest names of vacmViewTreeFamilyTable (RFC 3415).
use crate::worlds::{all_objects, port, world_under};
use message_core::Value;
use std::alloc::Global;
use std::test::Fail;

// A policy of six rows.
const FAMILIES: &str = "contexts = []\n\
    community = []\n\
    group = []\n\
    access = []\n\
    [[family]]\n\
    view = \"ops\"\n\
    subtree = \"1.3.3.3.3.3.3.3\"\n\
    mask = \"\"\n\
    included = true\n\
    [[family]]\n\
    view = \"a-view-of-two-and-thirty-octets.\"\n\
    subtree = \"1.3.3.3.3.3.3.3.3.3.3.3.3.3.3.3.3.3.3.3.3.3.3.3.3.3.3.3.3.3.3.3.3.3.3.3.3.3.3\
    .3.3.3.3.3.3.3.3.3.3.3.3.3.3.3.3.3.3.3.3.3.3.3.3.3.3.3.3.3.3.3.3.3.3.3.3.3.3.3.3.3.3.3\"\n\
    mask = \"AAAAAAAAAAAAAAAAAAAAAAAAAAAAAAAA\"\n\
    included = true\n\
    [[family]]\n\
    view = \"x\"\n\
    subtree = \"1.3.3.3.3.3.3.3.3.3.3.3.3.3.3.3.3.3.3.3.3.3.3.3.3.3.3.3.3.3.3.3.3.3.3.3.3.3.3\
    .3.3.3.3.3.3.3.3.3.3.3.3.3.3.3.3.3.3.3.3.3.3.3.3.3.3.3.3.3.3.3.3.3.3.3.3.3.3.3.3.3.3.3.3.3\
    .3.3.3.3.3.3.3.3.3.3.3.3.3.3.3.3.3.3.3.3.3.3.3.3.3.3.3.3.3\"\n\
    mask = \"FF\"\n\
    included = true\n\
    [[family]]\n\
    view = \"wide\"\n\
    subtree = \"1.3\"\n\
    mask = \"80\"\n\
    included = false\n\
    [[family]]\n\
    view = \"ops\"\n\
    subtree = \"1.3.3.3.3\"\n\
    mask = \"F000\"\n\
    included = false\n\
    [[family]]\n\
    view = \"opt\"\n\
    subtree = \"1.3.3.3\"\n\
    mask = \"\"\n\
    included = true\n";

// A row of it.
#[derive(Clone, Copy)]
struct Row {
    view: &'static str,
    // How many octets the view's name has.
    octets: u32,
    // How many numbers the subtree has, of which the first is 1 and each other one 3.
    numbers: u32,
    // included(1) or excluded(2).
    kind: i32,
}

const ONE: Row = Row {
    view: "x",
    octets: 1,
    numbers: 113,
    kind: 1,
};

const WIDE: Row = Row {
    view: "wide",
    octets: 4,
    numbers: 2,
    kind: 2,
};

const MOST: Row = Row {
    view: "a-view-of-two-and-thirty-octets.",
    octets: 32,
    numbers: 82,
    kind: 1,
};

// The index of a row.
fn index_of(alloc: Global, row: &Row) -> Result<Vec<u32>, Fail> {
    let mut index = Vec::new(alloc);
    index.push(row.octets)?;
    for octet in row.view.as_bytes() {
        index.push(u32::from(*octet))?;
    }
    index.push(row.numbers)?;
    index.push(1)?;
    for _ in 1..row.numbers {
        index.push(3)?;
    }
    Ok(index)
}

// The name of the instance of a row: that of a column of 12 numbers, and the index.
fn name_of(alloc: Global, column: u32, row: &Row) -> Result<Vec<u32>, Fail> {
    let mut name = Vec::from_array(alloc, [1, 3, 6, 1, 6, 3, 16, 1, 5, 2, 1, column])?;
    name.extend_from_slice(index_of(alloc, row)?.as_slice())?;
    Ok(name)
}

// Whether this is an INTEGER of a number.
fn is_integer(value: Option<Value>, number: i32) -> bool {
    match value {
        Some(Value::Integer(shown)) => shown == number,
        _ => false,
    }
}

// How many numbers the name of a row's type has, and whether a registry of all objects gives it behind
// this column of another row, with the row's value, and reads it.
fn follows(alloc: Global, column: u32, before: &Row, row: &Row) -> Result<(usize, bool), Fail> {
    let world = world_under(alloc, &[port(1)], FAMILIES.as_bytes())?;
    let registry = all_objects(alloc)?;
    let after = name_of(alloc, column, before)?;
    let name = name_of(alloc, 4, row)?;
    let found = registry.next(alloc, &world, &after)?.ok_or("an instance")?;
    let is_named = found.name.as_slice() == name.as_slice();
    let read = registry.read(alloc, &world, &name);
    let are_types = is_integer(Some(found.value), row.kind) && is_integer(read, row.kind);
    Ok((name.len(), is_named && are_types))
}

// The longest names that there are have 128 numbers.
#[test]
fn a_registry_shows_names_of_128_numbers(rt: HostRuntime) -> Result<(), Fail> {
    let alloc = rt.alloc();
    assert_eq!(rt; follows(alloc, 3, &MOST, &ONE)?, (128, true));
    assert_eq!(rt; follows(alloc, 4, &WIDE, &MOST)?, (128, true));
    Ok(())
}
