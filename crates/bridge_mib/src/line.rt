//! The devices that switch the lines of ports on and off.
ghost use Rattle.std.specs.Prelude.{◌≡◌};

use setphase_core::DeviceFault;
use std::marker::Model;

/// Switches the lines of ports on and off.
pub trait LineDriver: Drop {
    ghost use Rattle.std.specs.Prelude.{◌≡◌, ℕ, ◌+◌, Bool, true, false, Option, Result, OnOk, OnErr};
    ghost use Rattle.setphase_core.specs.declared.object.DeviceFault.{DeviceFault as Fault};
    ghost use Rattle.setphase_core.specs.Plans.{plan_after_call, plan_after_arm, FollowsPlan};

    // How often it has failed.
    ghost failures: { Self → ℕ };

    // What is left of its plan, where it takes plans: bit k - 1 says that the k-th call of
    // `set_enabled` from now fails.
    ghost plan_left: { Self → Option ℕ };

    // Called with that the line of a port is to be on, or off, it may answer so and become that.
    ghost reported: { Self → ℕ → Bool → Result Unit Fault → Self → Type 0 };

    /// Switches the line of a port on or off, whatever it is already. It takes no memory.
    ///
    /// # Errors
    /// The line stays as it was. Where it takes plans, it fails exactly where its plan says so.
    fn set_enabled(&mut self, port: u16, enabled: bool) -> Result<(), DeviceFault>
        ensures reported { reported self.old port enabled result self.new }
        ensures done { OnOk result (failures self.new ≡ failures self.old) }
        ensures failed { OnErr result (failures self.new ≡ failures self.old + 1) }
        ensures spent { plan_left self.new ≡ plan_after_call (plan_left self.old) }
        ensures passes { OnOk result (FollowsPlan (plan_left self.old) (failures self.old) false) }
        ensures fails { OnErr result (FollowsPlan (plan_left self.old) (failures self.old) true) };

    /// Takes a plan of the calls of `set_enabled` that fail, in place of the one before: bit k - 1
    /// says that the k-th from now does. A driver without plans does nothing. It takes no memory.
    fn arm(&mut self, plan: u64)
        ensures armed { plan_left self.new ≡ plan_after_arm (plan_left self.old) plan }
        ensures failed { failures self.new ≡ failures self.old };
}

/// A driver that never fails.
#[derive(Clone, Copy, Debug, Default, Drop)]
pub struct Steady;

impl LineDriver for Steady {
    ghost use Rattle.std.specs.Prelude.{◌≡◌, Ok, None};

    ghost failures = { λ _. 0 };

    ghost plan_left = { λ _. None };

    ghost reported = { λ _ _ _ answer _. answer ≡ Ok tt };

    fn set_enabled(&mut self, _port: u16, _enabled: bool) -> Result<(), DeviceFault> {
        Ok(())
    }

    fn arm(&mut self, _plan: u64) {}
}

/// A driver that fails by plan, `u64::MAX` times at most. It is seen as its plan, and how often it
/// has failed.
#[derive(Drop)]
pub struct Planned {
    plan: u64,
    failures: u64,
}

impl Model for Planned {
    ghost use Rattle.bridge_mib.specs.Line.{Plan};

    ghost Value = { Plan };

    ghost view = { λ d. record { calls = d.plan; failed = d.failures } };
}

impl Planned {
    /// One that has never failed, and whose plan has no failure.
    pub fn new() -> Planned
        ensures { result ≡ record { calls = 0; failed = 0 } }
    {
        Planned {
            plan: 0,
            failures: 0,
        }
    }
}

impl LineDriver for Planned {
    ghost use Rattle.std.specs.Prelude.{Some};

    ghost failures = { λ p. p.failed };

    ghost plan_left = { λ p. Some p.calls };

    // It switches no line.
    ghost reported = { λ _ _ _ _ _. Unit };

    fn set_enabled(&mut self, _port: u16, _enabled: bool) -> Result<(), DeviceFault> {
        let fails = self.plan % 2 == 1 && self.failures < u64::MAX;
        self.plan /= 2;
        if fails {
            self.failures += 1;
            Err(DeviceFault)
        } else {
            Ok(())
        }
    }

    fn arm(&mut self, plan: u64) {
        self.plan = plan;
    }
}
