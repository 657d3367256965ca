//! What goes on in a thread of its own: the lines of a run, by their kinds.
ghost use Rattle.std.specs.Prelude.{◌≡◌, ◌+◌, ◌<◌};

use live_agent::{GatedWire, PacedWire, Plan, Ran, port_run, ticker_run, worker_run};
use live_lock::{Live, Run, Share};
use setphase_core::MibObject;
use std::sync::Wait;
use wire_core::Wire;

/// A kind of lines. No value of it is made.
pub trait LineKind: Send {
    ghost use Rattle.std.specs.Prelude.{ℕ};

    // There are fewer lines of the kind than this.
    ghost limit: { ℕ };
}

/// A line of a kind, which goes on in a thread of its own until it ends as an `E` says.
pub trait LineTask<K: LineKind, E>: Drop {
    ghost use Rattle.std.specs.Prelude.{◌≡◌, ◌+◌, ◌<◌, ℕ};
    ghost use Rattle.live_agent.specs.Lines.{RunStart, run_start_of};

    // By this setting, in intervals of so many rounds, the line at this place of its list, counted from
    // 0, went on from one state of it and one count of its thread's entries to another, and ended so.
    ghost gone: { RunStart → ℕ → ℕ → Self → ℕ → Self → ℕ → E → Type 0 };

    /// Goes on until it ends. Gives back the share, itself, and how it ended.
    fn run_line<O: MibObject, L: Run, R: Wait>(
        self,
        rt: &R,
        plan: &Plan,
        live: &Live<O, L>,
        place: usize,
        share: Share<L>,
    ) -> (Share<L>, Self, E)
        requires place { place + 1 < K.limit }
        requires part { 0 < share.parts }
        ensures gone { gone (run_start_of L.start plan.now) plan.now.rounds place self share.amount result.1
            result.0.amount result.2 }
        ensures parts { result.0.parts ≡ share.parts };
}

/// Workers, each of which is its wire.
pub struct Workers;

impl LineKind for Workers {
    ghost use Rattle.std.specs.Prelude.{◌^◌};

    ghost limit = { 2 ^ 16 };
}

impl<A: GatedWire> LineTask<Workers, Ran> for A {
    ghost use Rattle.live_run.specs.Crews.{WorkerRan, RanBetween};

    ghost gone = { λ s rounds place. RanBetween (WorkerRan A.did A.failures s rounds place) };

    fn run_line<O: MibObject, L: Run, R: Wait>(
        mut self,
        rt: &R,
        plan: &Plan,
        live: &Live<O, L>,
        place: usize,
        mut share: Share<L>,
    ) -> (Share<L>, A, Ran) {
        let items = Vec::new(plan.alloc);
        let (end, items) = worker_run(rt, plan, live, &mut share, &mut self, place, items);
        (share, self, Ran::new(end, items))
    }
}

/// Ports, each of which is its wire. The first of them is port 1.
pub struct Ports;

impl LineKind for Ports {
    ghost use Rattle.std.specs.Prelude.{◌^◌};

    ghost limit = { 2 ^ 16 };
}

impl<W: Wire> LineTask<Ports, Ran> for W {
    ghost use Rattle.std.specs.Prelude.{◌+◌};
    ghost use Rattle.live_run.specs.Crews.{PortRan, RanBetween};

    ghost gone = { λ s rounds place. RanBetween (PortRan W.went W.failures s rounds (place + 1)) };

    fn run_line<O: MibObject, L: Run, R: Wait>(
        mut self,
        rt: &R,
        plan: &Plan,
        live: &Live<O, L>,
        place: usize,
        mut share: Share<L>,
    ) -> (Share<L>, W, Ran) {
        let port = place as u16 + 1;
        let items = Vec::new(plan.alloc);
        let (end, items) = port_run(rt, plan, live, &mut share, &mut self, port, items);
        (share, self, Ran::new(end, items))
    }
}

/// The ticker, which is its wire.
pub struct Tickers;

impl LineKind for Tickers {
    ghost limit = { 2 };
}

impl<T: PacedWire> LineTask<Tickers, Ran> for T {
    ghost use Rattle.live_run.specs.Crews.{TickerRan, RanBetween};

    ghost gone = { λ s rounds place. RanBetween (TickerRan T.did T.failures s rounds) };

    fn run_line<O: MibObject, L: Run, R: Wait>(
        mut self,
        rt: &R,
        plan: &Plan,
        live: &Live<O, L>,
        _place: usize,
        mut share: Share<L>,
    ) -> (Share<L>, T, Ran) {
        let items = Vec::new(plan.alloc);
        let (end, items) = ticker_run(rt, plan, live, &mut share, &mut self, items);
        (share, self, Ran::new(end, items))
    }
}
