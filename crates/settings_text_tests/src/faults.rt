//! Texts that are refused, each by its first fault.

use crate::texts::opened;
use rstp_settings::key::{BridgeKey, PortKey};
use settings_text::{PortRowKey, SettingsFault, StaticRowKey, settings_in};
use std::alloc::Global;
use std::process::Abort;
use std::test::Fail;

// A text that is refused by this fault.
fn is_refused(
    rt: &impl Abort,
    alloc: Global,
    text: &str,
    fault: SettingsFault,
) -> Result<(), Fail> {
    let bridge = opened(alloc)?;
    let text = format!(in alloc; "address = \"02000000000A\"\n{text}")?;
    assert_eq!(rt;
        settings_in(alloc, &bridge, text.as_str()).err(),
        Some(fault)
    );
    Ok(())
}

#[test]
fn faults_of_the_top_level(rt: HostRuntime) -> Result<(), Fail> {
    let alloc = rt.alloc();
    let bridge = opened(alloc)?;
    let other = settings_in(alloc, &bridge, "address = \"02000000000B\"");
    assert_eq!(rt; other.err(), Some(SettingsFault::OtherBridge));
    let none = settings_in(alloc, &bridge, "");
    assert_eq!(rt; none.err(), Some(SettingsFault::BadAddress));
    is_refused(&rt, alloc, "priority = ", SettingsFault::BadText)?;
    is_refused(
        &rt,
        alloc,
        "priority = 1",
        SettingsFault::BadSetting(BridgeKey::Priority),
    )?;
    is_refused(
        &rt,
        alloc,
        "aging = \"20\"",
        SettingsFault::BadSetting(BridgeKey::Aging),
    )?;
    is_refused(&rt, alloc, "maxage = 4000", SettingsFault::BadTimers)?;
    is_refused(&rt, alloc, "port = 1", SettingsFault::BadPorts)?;
    is_refused(&rt, alloc, "static = 1", SettingsFault::BadStatics)?;
    is_refused(&rt, alloc, "mask = 1", SettingsFault::OtherKey)?;
    Ok(())
}

fn is_bad_port(rt: &impl Abort, alloc: Global, text: &str, key: PortRowKey) -> Result<(), Fail> {
    is_refused(rt, alloc, text, SettingsFault::BadPort(0, key))
}

#[test]
fn faults_of_ports(rt: HostRuntime) -> Result<(), Fail> {
    let alloc = rt.alloc();
    is_bad_port(&rt, alloc, "[[port]]\nnumber = 3", PortRowKey::Number)?;
    is_bad_port(
        &rt,
        alloc,
        "[[port]]\nnumber = 1\nedge = 3",
        PortRowKey::Setting(PortKey::Edge),
    )?;
    is_bad_port(
        &rt,
        alloc,
        "[[port]]\nnumber = 1\npriority = 16",
        PortRowKey::Other,
    )?;
    let twice = "[[port]]\nnumber = 1\n[[port]]\nnumber = 1";
    is_refused(
        &rt,
        alloc,
        twice,
        SettingsFault::BadPort(1, PortRowKey::Order),
    )
}

fn is_bad_row(rt: &impl Abort, alloc: Global, text: &str, key: StaticRowKey) -> Result<(), Fail> {
    is_refused(rt, alloc, text, SettingsFault::BadStatic(0, key))
}

#[test]
fn faults_of_static_rows(rt: HostRuntime) -> Result<(), Fail> {
    let alloc = rt.alloc();
    let own = "[[static]]\naddress = \"02000000000A\"\nport = 0\nports = []";
    is_bad_row(&rt, alloc, own, StaticRowKey::Address)?;
    let reserved = "[[static]]\naddress = \"0180C2000000\"\nport = 0\nports = []";
    is_bad_row(&rt, alloc, reserved, StaticRowKey::Address)?;
    let port = "[[static]]\naddress = \"020000000101\"\nport = 3\nports = []";
    is_bad_row(&rt, alloc, port, StaticRowKey::Port)?;
    let ports = "[[static]]\naddress = \"020000000101\"\nport = 0\nports = [3]";
    is_bad_row(&rt, alloc, ports, StaticRowKey::Ports)?;
    let other = "[[static]]\naddress = \"020000000101\"\nport = 0\nports = []\nmade = 1";
    is_bad_row(&rt, alloc, other, StaticRowKey::Other)
}
