//! An interval of the control line.
ghost use Rattle.std.specs.Prelude.{◌≡◌, ◌<◌};
ghost use Rattle.live_agent.specs.Lines.{run_start_of};
ghost use Rattle.live_laps.specs.Laps.{HasCommanded};
ghost use Rattle.live_laps.specs.Tallies.{wrapped, counts_of, MayAnswer};

use crate::book::Drops;
use crate::watch::Watch;
use live_agent::{End, Plan};
use live_control::{
    COMMAND_SPACE, ControlItem, ControlRecorder, ControlWire, DropCounts, DropTally, control_run,
};
use live_lock::{Live, Run, Share};
use setphase_core::MibObject;
use std::alloc::AllocError;
use std::sync::Wait;

// Reports each item of a command to a line's watch, and keeps none.
#[derive(Drop)]
struct WatchItems<'w, V> {
    watch: &'w V,
}

impl<V: Watch> ControlRecorder for WatchItems<'_, V> {
    ghost went = { λ _ _ _. Unit };

    ghost has_space = { λ _. Unit };

    ghost starts = { λ _. tt };

    ghost goes_on = { λ _ _ _ _ _ _ _. tt };

    fn reserve(&mut self) -> Result<(), AllocError> {
        Ok(())
    }

    fn record(&mut self, item: ControlItem) {
        self.watch.commanded(&item);
    }
}

// What a line's watch counts of drops, for an operator.
#[derive(Drop)]
struct WatchTally<'w, V> {
    watch: &'w V,
}

impl<V: Watch> DropTally for WatchTally<'_, V> {
    ghost use Rattle.live_laps.specs.Tallies.{MayAnswer};

    ghost reports = { λ tally counts. MayAnswer V.reports tally.watch.now counts };

    fn dropped<R: Wait>(&self, rt: &R) -> DropCounts {
        counts_of(self.watch.dropped(rt))
    }
}

// A count modulo 2^32.
fn wrapped(count: u64) -> u32
    ensures { result ≡ wrapped count }
{
    (count % (1 << 32)) as u32
}

// The drops, each modulo 2^32.
fn counts_of(drops: Drops) -> DropCounts
    ensures { result ≡ counts_of drops }
{
    DropCounts {
        too_long: wrapped(drops.too_long),
        malformed: wrapped(drops.malformed),
        bad_version: wrapped(drops.bad_version),
        bad_kind: wrapped(drops.bad_kind),
        memory: wrapped(drops.memory),
    }
}

/// An interval of the control line of so many ports, and how it ended. An operator who asks for the
/// counts is answered what the watch gives then: drops that it reports, each cause's count modulo 2^32
/// (`run`), and so some counts (`any`). What became of each command is reported to the watch.
pub(crate) fn command_interval<O: MibObject, L: Run, C: ControlWire, V: Watch, R: Wait>(
    rt: &R,
    plan: &Plan,
    ports: u16,
    watch: &V,
    live: &Live<O, L>,
    share: &mut Share<L>,
    wire: &mut C,
) -> End
    requires { 0 < share.old.parts }
    ensures run { HasCommanded C.did (MayAnswer V.reports watch.now) (run_start_of L.start plan.now)
        plan.now.rounds ports wire.old wire.new share.old.amount share.new.amount result }
    ensures any { HasCommanded C.did (λ counts. Unit) (run_start_of L.start plan.now) plan.now.rounds ports
        wire.old wire.new share.old.amount share.new.amount result }
    ensures parts { share.new.parts ≡ share.old.parts }
{
    let mut space = [0u8; COMMAND_SPACE];
    let tally = WatchTally { watch };
    let items = WatchItems { watch };
    let (end, _items) = control_run(
        rt, plan, ports, &tally, live, share, wire, &mut space, items,
    );
    end
}
