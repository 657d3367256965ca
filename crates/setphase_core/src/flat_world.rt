//! A flat copy of a world, to be kept and compared.
ghost use Rattle.std.specs.Prelude.{◌≡◌, ◌↔◌, IsTrue};
ghost use Rattle.setphase_core.specs.declared.world.World.{World as TheWorld};
ghost use Rattle.setphase_core.specs.Flat.{policy_of_rows, AreRowsOfTheirPolicy, without_promises};

use bridge_core::FlatBridge;
use community_core::PolicyRows;
use std::marker::Model;
use vacm_core::Same;

/// A flat copy of a world, seen as the world is. All that the bridge and its ports have stands in
/// fixed arrays; only the learned and the static rows are in vectors, in their order, and the policy is
/// its lists of rows as they are written. No event changes it.
pub struct FlatWorld {
    bridge: FlatBridge,
    policy: PolicyRows,
    bad_communities: u32,
    unknown_contexts: u32,
}

// By hand, so that who lets one go knows nothing of its parts.
impl Drop for FlatWorld {
    fn drop(self) {
        let FlatWorld {
            bridge: _bridge,
            policy: _policy,
            bad_communities: _bad_communities,
            unknown_contexts: _unknown_contexts,
        } = self;
    }
}

impl Model for FlatWorld {
    ghost Value = { TheWorld };

    ghost view = { λ w. record {
      bridge = w.bridge;
      policy = policy_of_rows w.policy;
      bad_communities = w.bad_communities;
      unknown_contexts = w.unknown_contexts;
    } };

    ghost invariant = { λ w. AreRowsOfTheirPolicy w.policy };
}

impl FlatWorld {
    // The flat copy that has these parts.
    pub(crate) fn of(
        bridge: FlatBridge,
        policy: PolicyRows,
        bad_communities: u32,
        unknown_contexts: u32,
    ) -> FlatWorld
        requires { AreRowsOfTheirPolicy policy }
        ensures { result ≡ record {
          bridge = bridge;
          policy = policy_of_rows policy;
          bad_communities = bad_communities;
          unknown_contexts = unknown_contexts;
        } }
    {
        FlatWorld {
            bridge,
            policy,
            bad_communities,
            unknown_contexts,
        }
    }

    /// Whether the two worlds are equal in all that they keep: the bridge with its settings, its
    /// spanning tree, its learned and static rows and its counters, the policy row by row, and what
    /// was dropped; it passes over for how many static rows there is sure to be memory. It takes no
    /// memory.
    pub fn same(&self, other: &FlatWorld) -> bool
        ensures { IsTrue result ↔ (without_promises self.now ≡ without_promises other.now) }
    {
        self.bad_communities == other.bad_communities
            && self.unknown_contexts == other.unknown_contexts
            && self.bridge.same(&other.bridge)
            && self.policy.same(&other.policy)
    }
}
