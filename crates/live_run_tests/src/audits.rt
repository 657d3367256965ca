//! The line of an audit of a Set that could not be undone, written to a stream.
use audit_core::{Audit, DeniedBindings, UnrestoredSpace, audit_line};
use decision::{AccessKey, Decision};
use message_core::{ErrorStatus, Kind};
use rstp_settings::key::{BridgeKey, Key, PortKey};
use setting_keys::{MAX_KEYS, SettingKeys};
use std::alloc::Global;
use std::test::Fail;
use vacm_core::{AccessRow, Level, Name};

// The keys of a setting of each kind, the last of them first.
const KEYS: [Key; 13] = [
    Key::Port(31, PortKey::PointToPoint),
    Key::Port(9, PortKey::Edge),
    Key::Port(10, PortKey::Migrate),
    Key::Port(2, PortKey::Cost),
    Key::Port(1, PortKey::Enable),
    Key::Port(32, PortKey::Priority),
    Key::Bridge(BridgeKey::Aging),
    Key::Bridge(BridgeKey::HoldCount),
    Key::Bridge(BridgeKey::Version),
    Key::Bridge(BridgeKey::ForwardDelay),
    Key::Bridge(BridgeKey::Hello),
    Key::Bridge(BridgeKey::MaxAge),
    Key::Bridge(BridgeKey::Priority),
];

const LINE: &str = "set 15 0 ok access(writers,,2,1) view w unrestored priority unrestored maxage \
    unrestored hello unrestored fwddelay unrestored version unrestored holdcount unrestored aging \
    unrestored portpriority(32) unrestored enable(1) unrestored cost(2) unrestored migrate(10) \
    unrestored edge(9) unrestored p2p(31)\n";

// The key of a group's row for every context, under model 2 and from level 1 on.
fn row_of(group: Name) -> AccessKey {
    let row = AccessRow {
        group,
        prefix: Name::empty(),
        model: 2,
        level: Level::NoAuthNoPriv,
        exact: true,
        read: Name::empty(),
        write: Name::empty(),
        notify: Name::empty(),
    };
    AccessKey::of(&row)
}

// The settings of these keys, of which the last is put first.
fn settings(keys: &[Key]) -> SettingKeys {
    let mut settings = SettingKeys::new();
    for key in keys {
        if settings.as_slice().len() < MAX_KEYS {
            settings.put_first(*key);
        }
    }
    settings
}

// The audit of a Set that could not restore these settings.
fn undo_failed(alloc: Global, keys: &[Key]) -> Result<Audit, Fail> {
    let row = row_of(Name::of("writers"));
    let view = Name::of("w");
    let unrestored = UnrestoredSpace::reserved(alloc)?.filled(settings(keys));
    Ok(Audit {
        kind: Kind::Set,
        status: ErrorStatus::UndoFailed,
        index: 0,
        decision: Decision::Allowed { row, view },
        denied: DeniedBindings::new(alloc),
        unrestored,
    })
}

// The line of an audit.
fn line_of(alloc: Global, audit: &Audit) -> Result<Vec<u8>, Fail> {
    let mut line = Vec::new(alloc);
    audit_line(audit, &mut line).ok().ok_or("a line")?;
    Ok(line)
}

#[test]
fn names_settings_that_are_not_restored(rt: HostRuntime) -> Result<(), Fail> {
    let audit = undo_failed(rt.alloc(), &KEYS)?;
    let line = line_of(rt.alloc(), &audit)?;
    assert_eq!(rt; line.as_slice(), LINE.as_bytes());
    Ok(())
}
