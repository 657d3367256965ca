//! Opens the world of a configuration, and the registry of objects.
ghost use Rattle.std.specs.Prelude.{◌≡◌, ◌≤◌, IfOk, IfErr, length, map};
ghost use Rattle.bridge_core.specs.Opening.{opening_bridge};
ghost use Rattle.configuration.specs.Bounds.{IsWithinBounds};
ghost use Rattle.configuration.specs.Configurations.{IsConfigurationIn};
ghost use Rattle.agent_program.specs.Agents.{configs_of, first_world, IsWorldOf, MakeRegistry};
ghost use Rattle.agent_program.specs.Runs.{IsNotOpened};

use arrayvec::ArrayVec;
use bridge_core::Bridge;
use community_core::Policy;
use configuration::{Configuration, ConfigurationFault, Port, configuration_in};
use rstp_core::{MAX_PORTS, PortConfig};
use script_core::RunFault;
use setphase_core::{MibObject, Registry, World, are_named};
use std::alloc::Global;
use udp_agent::Unserved;

/// Why the octets of a configuration were not run to the end of a script.
#[derive(Clone, Copy, Debug, PartialEq, Eq)]
pub enum NotRun {
    /// They say no configuration, and this is their first fault; nothing was read or written.
    Refused(ConfigurationFault),
    /// They say a configuration that cannot be served, for this reason; nothing was read or written.
    Unserved(Unserved),
    /// There was no memory for the configuration or for what it opens; nothing was read or written.
    Memory,
    /// The objects make no registry; nothing was read or written.
    NoRegistry,
    /// The run stopped.
    Stopped(RunFault),
}

// What is fixed of each port.
fn port_configs(ports: &[Port]) -> ArrayVec<PortConfig, MAX_PORTS>
    requires { length ports.now ≤ MAX_PORTS }
    ensures { result.items ≡ configs_of ports.now }
{
    let mut configs = ArrayVec::new();
    for port in ports {
        configs.push(port.config);
    }
    configs
}

/// The bridge of a configuration, whose address and ports are those of a bridge.
pub fn open_bridge(alloc: Global, configuration: &Configuration) -> Bridge
    requires { IsWithinBounds configuration.now }
    ensures { result ≡ opening_bridge configuration.now.address
        (configs_of configuration.now.ports.items) }
{
    let ports = port_configs(configuration.ports.as_slice());
    match Bridge::new(alloc, configuration.address, ports.as_slice()) {
        Ok(bridge) => bridge,
        Err(_) => unreachable!(),
    }
}

/// A world of this bridge and this policy, of which nothing was dropped yet.
pub fn undropped(bridge: Bridge, policy: Policy) -> World
    ensures { result ≡ first_world bridge policy }
{
    World {
        bridge,
        policy,
        bad_communities: 0,
        unknown_contexts: 0,
    }
}

/// The configuration of octets.
///
/// # Errors
/// As of [`open`].
pub fn read_configuration(alloc: Global, octets: &[u8]) -> Result<Configuration, NotRun>
    ensures configuration { IfOk result (λ c. IsConfigurationIn octets.now c) }
    ensures fault { IfErr result (λ why. IsNotOpened octets.now why) }
{
    match configuration_in(alloc, octets) {
        Ok(configuration) => Ok(configuration),
        Err(ConfigurationFault::Memory) => Err(NotRun::Memory),
        Err(fault) => Err(NotRun::Refused(fault)),
    }
}

/// Opens the world of the configuration that octets say: a bridge of its address and its ports,
/// under its policy.
///
/// # Errors
/// `Refused`, with their first fault, only where the octets say no configuration; `Memory` only where
/// they are a text of more than white space and comments.
pub fn open(alloc: Global, octets: &[u8]) -> Result<World, NotRun>
    ensures world { IfOk result (λ world. IsWorldOf octets.now world) }
    ensures fault { IfErr result (λ why. IsNotOpened octets.now why) }
{
    let configuration = read_configuration(alloc, octets)?;
    let bridge = open_bridge(alloc, &configuration);
    Ok(undropped(bridge, configuration.policy))
}

/// The registry of these objects. It takes no memory.
///
/// # Errors
/// `NoRegistry` exactly where they make none.
pub fn registry_of<M: MibObject>(objects: Vec<M>) -> Result<Registry<M>, NotRun>
    ensures registry { IfOk result (λ registry. registry ≡ map M.state objects.items) }
    ensures makes { IfOk result (λ registry. MakeRegistry registry) }
    ensures fault { IfErr result (λ why. (why ≡ NotRun.NoRegistry) ×
        (MakeRegistry (map M.state objects.items) → ⊥)) }
{
    if !are_named(objects.as_slice()) {
        return Err(NotRun::NoRegistry);
    }
    match Registry::new(objects) {
        Ok(registry) => Ok(registry),
        Err(_) => Err(NotRun::NoRegistry),
    }
}
