//! Worlds made by hand, and all objects.
ghost use Rattle.std.specs.Prelude.{◌≤◌};

use bridge_core::Bridge;
use bridge_mib::Steady;
use frame_core::worked::OWN;
use object_list::{Object, objects};
use policy_text::policy_in;
use rstp_core::{IfIndex, PortConfig};
use setphase_core::{Registry, World};
use std::alloc::Global;
use std::test::Fail;

// A policy of one view, `all`, of all of the bridge.
const ALL_SEEN: &str = r#"contexts = []
community = []
group = []
access = []
[[family]]
view = "all"
subtree = "1.3.6.1.2.1.17"
mask = ""
included = true
"#;

// A policy whose community `public` reads all below 1.3.
const ALL_READ: &str = r#"contexts = []
[[community]]
index = "p"
name = "public"
security = "public"
context = ""
[[group]]
model = 2
name = "public"
group = "readers"
[[access]]
group = "readers"
prefix = ""
model = 2
level = 1
exact = true
read = "all"
write = ""
notify = ""
[[family]]
view = "all"
subtree = "1.3"
mask = ""
included = true
"#;

/// A port of an interface number, of 1000 Mb/s and full duplex.
pub fn port(ifindex: u32) -> PortConfig
    requires least { 1 ≤ ifindex }
    requires most { ifindex ≤ 2147483647 }
{
    PortConfig {
        ifindex: IfIndex::of(ifindex),
        speed: 1_000,
        full: true,
    }
}

/// All objects of a bridge and its policy.
pub fn all_objects(alloc: Global) -> Result<Registry<Object<Steady>>, Fail> {
    let objects = objects(alloc, Steady)?;
    Ok(Registry::new(objects).ok().ok_or("a registry")?)
}

/// A bridge of these ports, as it opens, under a policy of one view, `all`, in which all of the bridge is.
pub fn seen_world_of(alloc: Global, ports: &[PortConfig]) -> Result<World, Fail> {
    world_under(alloc, ports, ALL_SEEN.as_bytes())
}

/// A bridge of two ports, as it opens, of which the community `public` reads all.
pub fn open_world(alloc: Global) -> Result<World, Fail> {
    world_under(alloc, &[port(1), port(2)], ALL_READ.as_bytes())
}

/// A bridge of these ports, as it opens, under this policy.
pub fn world_under(alloc: Global, ports: &[PortConfig], policy: &[u8]) -> Result<World, Fail> {
    let bridge = Bridge::new(alloc, OWN, ports).ok().ok_or("a bridge")?;
    let policy = policy_in(alloc, policy)?.ok_or("a policy")?;
    Ok(World {
        bridge,
        policy,
        bad_communities: 0,
        unknown_contexts: 0,
    })
}
