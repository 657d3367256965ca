//! Finds what is warned of in a configuration that is right.
ghost use Rattle.std.specs.Prelude.{◌≡◌, ◌<◌, ◌++◌, length, map, bytes_eq, slice_get, position, filter_map, flat_map, IfOk, OnOk};
ghost use Rattle.std.specs.List.{list_any, cons_option};
ghost use Rattle.std.specs.Prelude.{[]};
ghost use Rattle.configuration.specs.Warnings.{knows_context, is_group_of, has_group, has_access, has_member, has_family, names_view, has_use, has_foreign_model, has_foreign_access_model, has_foreign_level, lacks_family, is_warned_at, rows_in, table_of, row_warning, row_warnings, all_row_warnings, no_community, warnings_of_rows, policy_warnings, same_ip, same_socket, same_address, shares, first_sharing, listens_at, is_port_0, port_warning, warning_of_port, port_warnings, all_port_checks, warnings_of};

use crate::configuration::{Configuration, Port, Serve};
use crate::warning::{PORT_CHECKS, PortCheck, PortWarning, ROW_WARNINGS, RowWarning, Warning};
use community_core::{Policy, PolicyRows, PolicyTable};
use std::alloc::{AllocError, Global};
use std::net::SocketAddr;
use vacm_core::{Text, VacmRows, WrittenAccess, WrittenGroup};

// The security model and the level of SNMPv2c, and the model of an access row for any model.
const SNMPV2C: i64 = 2;

const NO_AUTH_NO_PRIV: i64 = 1;

const ANY_MODEL: i64 = 0;

// Whether a context is the empty one, or is listed.
fn knows_context(vacm: &VacmRows, context: &Text) -> bool
    ensures { result ≡ knows_context vacm.now context.now }
{
    context.as_str().is_empty() || is_listed(vacm.contexts.as_slice(), context.as_str())
}

fn is_listed(contexts: &[Text], context: &str) -> bool
    ensures { result ≡ list_any (λ known. bytes_eq known context.now) contexts.now }
{
    contexts.iter().any(|known| known.as_str() == context)
}

// Whether a group row is of a security name, under the model of SNMPv2c.
fn is_group_of(security: &str, row: &WrittenGroup) -> bool
    ensures { result ≡ is_group_of security.now row.now }
{
    row.model == SNMPV2C && row.name.as_str() == security
}

// Whether a security name is in a group under that model.
fn has_group(vacm: &VacmRows, security: &Text) -> bool
    ensures { result ≡ has_group vacm.now security.now }
{
    let security = security.as_str();
    let rows = vacm.groups.as_slice();
    rows.iter().any(|row| is_group_of(security, row))
}

// Whether a group has an access row.
fn has_access(vacm: &VacmRows, group: &Text) -> bool
    ensures { result ≡ has_access vacm.now group.now }
{
    let group = group.as_str();
    let rows = vacm.access.as_slice();
    rows.iter().any(|row| row.group.as_str() == group)
}

// Whether somebody is in a group.
fn has_member(vacm: &VacmRows, group: &Text) -> bool
    ensures { result ≡ has_member vacm.now group.now }
{
    let group = group.as_str();
    let rows = vacm.groups.as_slice();
    rows.iter().any(|row| row.group.as_str() == group)
}

// Whether a view has a family.
fn has_family(vacm: &VacmRows, view: &Text) -> bool
    ensures { result ≡ has_family vacm.now view.now }
{
    let view = view.as_str();
    let rows = vacm.families.as_slice();
    rows.iter().any(|row| row.view.as_str() == view)
}

// Whether an access row names a view.
fn names_view(view: &str, row: &WrittenAccess) -> bool
    ensures { result ≡ names_view view.now row.now }
{
    row.read.as_str() == view || row.write.as_str() == view || row.notify.as_str() == view
}

// Whether some access row names a view.
fn has_use(vacm: &VacmRows, view: &Text) -> bool
    ensures { result ≡ has_use vacm.now view.now }
{
    let view = view.as_str();
    let rows = vacm.access.as_slice();
    rows.iter().any(|row| names_view(view, row))
}

// Whether no request has the model of a group row.
fn has_foreign_model(row: &WrittenGroup) -> bool
    ensures { result ≡ has_foreign_model row.now }
{
    row.model != SNMPV2C
}

// Whether no request has the model of an access row.
fn has_foreign_access_model(row: &WrittenAccess) -> bool
    ensures { result ≡ has_foreign_access_model row.now }
{
    row.model != ANY_MODEL && row.model != SNMPV2C
}

// Whether no request has the level of an access row.
fn has_foreign_level(row: &WrittenAccess) -> bool
    ensures { result ≡ has_foreign_level row.now }
{
    row.level != NO_AUTH_NO_PRIV
}

// Whether a view is named that has no family.
fn lacks_family(vacm: &VacmRows, view: &Text) -> bool
    ensures { result ≡ lacks_family vacm.now view.now }
{
    !view.as_str().is_empty() && !has_family(vacm, view)
}

// Whether the row of a number, of the table that the warning is of, is warned of so.
fn is_warned_at(rows: &PolicyRows, warning: RowWarning, n: usize) -> bool
    ensures { result ≡ is_warned_at rows.now warning n }
{
    let vacm = &rows.vacm;
    let community = rows.communities.as_slice().get(n);
    let group = vacm.groups.as_slice().get(n);
    let access = vacm.access.as_slice().get(n);
    let family = vacm.families.as_slice().get(n);
    match warning {
        RowWarning::UnknownContext => community.is_some_and(|row| !knows_context(
            vacm,
            &row.context,
        )),
        RowWarning::NoGroup => community.is_some_and(|row| !has_group(vacm, &row.security)),
        RowWarning::GroupModel => group.is_some_and(has_foreign_model),
        RowWarning::NoAccess => group.is_some_and(|row| !has_access(vacm, &row.group)),
        RowWarning::AccessModel => access.is_some_and(has_foreign_access_model),
        RowWarning::AccessLevel => access.is_some_and(has_foreign_level),
        RowWarning::NoMember => access.is_some_and(|row| !has_member(vacm, &row.group)),
        RowWarning::NoReadFamily => access.is_some_and(|row| lacks_family(vacm, &row.read)),
        RowWarning::NoWriteFamily => access.is_some_and(|row| lacks_family(vacm, &row.write)),
        RowWarning::UnusedView => family.is_some_and(|row| !has_use(vacm, &row.view)),
    }
}

// How many rows a table has.
fn rows_in(rows: &PolicyRows, table: PolicyTable) -> usize
    ensures { result ≡ rows_in rows.now table }
{
    match table {
        PolicyTable::Groups => rows.vacm.groups.as_slice().len(),
        PolicyTable::Access => rows.vacm.access.as_slice().len(),
        PolicyTable::Families => rows.vacm.families.as_slice().len(),
        PolicyTable::Contexts => rows.vacm.contexts.as_slice().len(),
        PolicyTable::Communities => rows.communities.as_slice().len(),
    }
}

// Adds a warning, if there is one.
fn add(warnings: &mut Vec<Warning>, warning: Option<Warning>) -> Result<(), AllocError>
    ensures { OnOk result (warnings.new.items ≡ warnings.old.items ++ cons_option warning []) }
{
    if let Some(warning) = warning {
        warnings.push(warning)?;
    }
    Ok(())
}

// The warning of the row of a number, if it is warned of so.
fn row_warning(rows: &PolicyRows, warning: RowWarning, n: usize) -> Option<Warning>
    ensures { result ≡ row_warning rows.now warning n }
{
    if is_warned_at(rows, warning, n) {
        Some(Warning::Row(warning, n))
    } else {
        None
    }
}

// Adds the rows that are warned of so.
fn add_rows(
    rows: &PolicyRows,
    warning: RowWarning,
    warnings: &mut Vec<Warning>,
) -> Result<(), AllocError>
    ensures { OnOk result (warnings.new.items ≡ warnings.old.items
        ++ row_warnings rows.now warning) }
{
    for n in 0..rows_in(rows, warning.table()) {
        add(warnings, row_warning(rows, warning, n))?;
    }
    Ok(())
}

// Adds the rows that are warned of in these ways, one way after the other.
fn add_all_rows(
    rows: &PolicyRows,
    ways: &[RowWarning],
    warnings: &mut Vec<Warning>,
) -> Result<(), AllocError>
    ensures { OnOk result (warnings.new.items ≡ warnings.old.items
        ++ flat_map (row_warnings rows.now) ways.now) }
{
    for warning in ways {
        add_rows(rows, *warning, warnings)?;
    }
    Ok(())
}

// The warning of a policy without a community.
fn no_community(rows: &PolicyRows) -> Option<Warning>
    ensures { cons_option result [] ≡ no_community rows.now }
{
    if rows.communities.as_slice().is_empty() {
        Some(Warning::NoCommunity)
    } else {
        None
    }
}

// What is warned of in a policy as it is written.
fn warnings_of_rows(alloc: Global, rows: &PolicyRows) -> Result<Vec<Warning>, AllocError>
    ensures { IfOk result (λ warnings. warnings.items ≡ warnings_of_rows rows.now) }
{
    let mut warnings = Vec::new(alloc);
    add(&mut warnings, no_community(rows))?;
    add_all_rows(rows, &ROW_WARNINGS, &mut warnings)?;
    Ok(warnings)
}

/// What is warned of in a policy: rows that cannot work under SNMPv2c, or are seldom meant. A policy
/// without a community comes first; then, kind by kind, all rows that are warned of so, in the order of
/// their table.
///
/// # Errors
/// `AllocError` where there is no memory for them.
pub fn policy_warnings(alloc: Global, policy: &Policy) -> Result<Vec<Warning>, AllocError>
    ensures { IfOk result (λ warnings. warnings.items ≡ policy_warnings policy.now) }
{
    let rows = policy.rows(alloc)?;
    warnings_of_rows(alloc, &rows)
}

// Whether two addresses are there and are one, of a port number that is not 0.
fn same_address(one: Option<SocketAddr>, other: Option<SocketAddr>) -> bool
    ensures { result ≡ same_address one other }
{
    match (one, other) {
        (Some(one), Some(other)) => same_socket(one, other),
        _ => false,
    }
}

// Whether two addresses are one, of a port number that is not 0.
fn same_socket(one: SocketAddr, other: SocketAddr) -> bool
    ensures { result ≡ same_socket one other }
{
    one == other && one.port() != 0
}

// Whether a port shares with another what is compared.
fn shares(check: PortCheck, port: &Port, other: &Port) -> bool
    ensures { result ≡ shares check port.now other.now }
{
    match check {
        PortCheck::Ifindex => port.config.ifindex.number() == other.config.ifindex.number(),
        PortCheck::Listen => same_address(port.listen, other.listen),
        PortCheck::Peer => same_address(port.peer, other.peer),
        PortCheck::Snmp | PortCheck::PeerPort => false,
    }
}

// The number of the first of these ports that shares with a port what is compared.
fn first_alike(check: PortCheck, port: &Port, ports: &[Port]) -> Option<usize>
    ensures { result ≡ position (shares check port.now) ports.now }
{
    ports.iter().position(|other| shares(check, port, other))
}

// The number of the first port above this one that shares with it what is compared.
fn first_sharing(check: PortCheck, ports: &[Port], n: usize) -> Option<usize>
    ensures { result ≡ first_sharing check ports.now n }
{
    let port = ports.get(n)?;
    first_alike(check, port, &ports[..n])
}

// Whether the frames of a port come in where requests do.
fn listens_at(serve: Option<Serve>, port: &Port) -> bool
    ensures { result ≡ listens_at serve port.now }
{
    match serve {
        Some(serve) => same_address(port.listen, Some(serve.snmp)),
        None => false,
    }
}

// Whether an address is there and has the port number 0.
fn is_port_0(address: Option<SocketAddr>) -> bool
    ensures { result ≡ is_port_0 address }
{
    match address {
        Some(address) => address.port() == 0,
        None => false,
    }
}

// What the port of a number is warned of, by one check.
fn port_warning(
    ports: &[Port],
    serve: Option<Serve>,
    check: PortCheck,
    n: usize,
) -> Option<PortWarning>
    ensures { result ≡ port_warning ports.now serve check n }
{
    match check {
        PortCheck::Ifindex => Some(PortWarning::SameIfindex(first_sharing(check, ports, n)?)),
        PortCheck::Listen => Some(PortWarning::SameListen(first_sharing(check, ports, n)?)),
        PortCheck::Peer => Some(PortWarning::SamePeer(first_sharing(check, ports, n)?)),
        PortCheck::Snmp if listens_at(serve, ports.get(n)?) => Some(PortWarning::ListenIsSnmp),
        PortCheck::PeerPort if is_port_0(ports.get(n)?.peer) => Some(PortWarning::PeerPortZero),
        PortCheck::Snmp | PortCheck::PeerPort => None,
    }
}

// The warning of the port of a number, by one check.
fn warning_of_port(
    ports: &[Port],
    serve: Option<Serve>,
    check: PortCheck,
    n: usize,
) -> Option<Warning>
    ensures { result ≡ warning_of_port ports.now serve check n }
{
    Some(Warning::Port(port_warning(ports, serve, check, n)?, n))
}

// Adds the ports that are warned of by one check.
fn add_ports(
    ports: &[Port],
    serve: Option<Serve>,
    check: PortCheck,
    warnings: &mut Vec<Warning>,
) -> Result<(), AllocError>
    ensures { OnOk result (warnings.new.items ≡ warnings.old.items
        ++ port_warnings ports.now serve check) }
{
    for n in 0..ports.len() {
        add(warnings, warning_of_port(ports, serve, check, n))?;
    }
    Ok(())
}

// Adds the ports that are warned of by these checks, one after the other.
fn add_all_ports(
    ports: &[Port],
    serve: Option<Serve>,
    checks: &[PortCheck],
    warnings: &mut Vec<Warning>,
) -> Result<(), AllocError>
    ensures { OnOk result (warnings.new.items ≡ warnings.old.items
        ++ flat_map (port_warnings ports.now serve) checks.now) }
{
    for check in checks {
        add_ports(ports, serve, *check, warnings)?;
    }
    Ok(())
}

/// What is warned of in a configuration that is right: what [`policy_warnings`] gives of its policy;
/// behind that, kind by kind, the ports that share an `ifindex`, a `listen` or a `peer` with one above,
/// whose `listen` is the address of requests, or whose `peer` has the port number 0. It copies the rows of
/// the policy once, and compares each with all others of a table, each port with all others.
///
/// # Errors
/// `AllocError` where there is no memory for them.
pub fn warnings_of(alloc: Global, configuration: &Configuration) -> Result<Vec<Warning>, AllocError>
    ensures { IfOk result (λ warnings. warnings.items ≡ warnings_of configuration.now) }
{
    let mut warnings = policy_warnings(alloc, &configuration.policy)?;
    add_all_ports(
        configuration.ports.as_slice(),
        configuration.serve,
        &PORT_CHECKS,
        &mut warnings,
    )?;
    Ok(warnings)
}
