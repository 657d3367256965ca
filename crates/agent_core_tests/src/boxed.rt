//! The 57 objects as boxed ones: a registry takes them in the order of their names, and hands each
//! of them back where it refuses them.
use bridge_mib::Steady;
use object_list::{COLUMNS, Object};
use setphase_core::{Column, MibObject, Registry, RegistryFault, are_named};
use std::alloc::Global;
use std::io::Write;
use std::test::Fail;

// The objects' names behind dot1dBridge (RFC 4188, RFC 4318), and those that stand elsewhere whole
// (RFC 3415).
const NAMES: [&str; 57] = [
    "1.1",
    "1.2",
    "1.3",
    "1.4.1.1",
    "1.4.1.2",
    "1.4.1.3",
    "1.4.1.4",
    "1.4.1.5",
    "2.1",
    "2.2",
    "2.3",
    "2.4",
    "2.5",
    "2.6",
    "2.7",
    "2.8",
    "2.9",
    "2.10",
    "2.11",
    "2.12",
    "2.13",
    "2.14",
    "2.15.1.1",
    "2.15.1.2",
    "2.15.1.3",
    "2.15.1.4",
    "2.15.1.5",
    "2.15.1.6",
    "2.15.1.7",
    "2.15.1.8",
    "2.15.1.9",
    "2.15.1.10",
    "2.15.1.11",
    "2.16",
    "2.17",
    "2.19.1.1",
    "2.19.1.2",
    "2.19.1.3",
    "2.19.1.4",
    "2.19.1.5",
    "2.19.1.6",
    "4.1",
    "4.2",
    "4.3.1.1",
    "4.3.1.2",
    "4.3.1.3",
    "4.4.1.1",
    "4.4.1.2",
    "4.4.1.3",
    "4.4.1.4",
    "4.4.1.5",
    "5.1.1.1",
    "5.1.1.2",
    "5.1.1.3",
    "5.1.1.4",
    "1.3.6.1.6.3.16.1.5.2.1.3",
    "1.3.6.1.6.3.16.1.5.2.1.4",
];

// Appends numbers, each behind a dot but the first.
fn say_numbers(numbers: &[u32], text: &mut Vec<u8>) -> Result<(), Fail> {
    for (place, number) in numbers.iter().enumerate() {
        if place > 0 {
            text.push(b'.')?;
        }
        write!(text, "{number}")?;
    }
    Ok(())
}

type AnyObject = Box<dyn MibObject + Send>;

// The objects of columns, boxed.
fn boxed(alloc: Global, columns: &[Column]) -> Result<Vec<AnyObject>, Fail> {
    let mut objects: Vec<AnyObject> = Vec::new(alloc);
    let mut driver = Some(Steady);
    for column in columns {
        objects.push(Box::new(alloc, Object::over(*column, &mut driver))?)?;
    }
    Ok(objects)
}

// Appends the numbers of a name behind dot1dBridge, or all of them where it stands elsewhere.
fn say_name(name: &[u32], text: &mut Vec<u8>) -> Result<(), Fail> {
    let rest = name.strip_prefix(&[1, 3, 6, 1, 2, 1, 17]);
    say_numbers(rest.unwrap_or(name), text)
}

// The name of an object behind dot1dBridge, or all of it where it stands elsewhere.
fn name_of<O: MibObject>(alloc: Global, object: &O) -> Result<Vec<u8>, Fail> {
    let mut text = Vec::new(alloc);
    say_name(object.prefix(), &mut text)?;
    Ok(text)
}

// Whether there are as many objects as names, and each has its name.
fn are<O: MibObject>(alloc: Global, objects: &[O], names: &[&str]) -> Result<bool, Fail> {
    for (object, name) in objects.iter().zip(names) {
        if name_of(alloc, object)?.as_slice() != name.as_bytes() {
            return Ok(false);
        }
    }
    Ok(objects.len() == names.len())
}

// How many objects a registry of these has, or why none takes them.
fn registered<O: MibObject>(objects: Vec<O>) -> Result<Result<usize, RegistryFault>, Fail> {
    if !are_named(objects.as_slice()) {
        return Err(Fail::from("names of objects"));
    }
    match Registry::new(objects) {
        Ok(registry) => Ok(Ok(registry.len())),
        Err((fault, _back)) => Ok(Err(fault)),
    }
}

#[test]
fn a_registry_takes_objects_in_order(rt: HostRuntime) -> Result<(), Fail> {
    let objects = boxed(rt.alloc(), &COLUMNS)?;
    assert!(rt; are(rt.alloc(), objects.as_slice(), &NAMES)?);
    assert_eq!(rt; registered(objects)?, Ok(57));
    Ok(())
}
