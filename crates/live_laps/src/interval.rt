//! The intervals of a line.
ghost use Rattle.std.specs.Prelude.{◌≡◌, ◌<◌, List};
ghost use Rattle.live_agent.specs.Lines.{run_start_of};
ghost use Rattle.live_agent.specs.declared.trace.Item.{Item};
ghost use Rattle.live_agent.specs.declared.trace.End.TheVariants as end;
ghost use Rattle.live_laps.specs.Sums.{sum_of};
ghost use Rattle.live_laps.specs.Laps.{IsInterval, IsShort, IsNoted, IsNotedInterval, HasFailed, GoesOn, place_of};
ghost use Rattle.live_laps.specs.Notes.{Note};

use crate::commands::command_interval;
use crate::line::{Line, Watched};
use crate::sum::IntervalSum;
use crate::watch::Watch;
use live_agent::{
    End, GatedWire, PacedWire, Plan, port_interval, port_run, ticker_run, worker_run,
};
use live_control::ControlWire;
use live_lock::{Live, Run, Share};
use live_run::{LineKind, LineTask};
use setphase_core::MibObject;
use std::sync::Wait;
use wire_core::{Pace, Wire};

// One interval of a line: how it ended, and its counts. A port's begins with its link until that
// was entered. Only such a link, and a command, ends one for want of memory, since a sum takes none.
fn run_interval<
    O: MibObject,
    L: Run,
    A: GatedWire,
    W: Wire,
    T: PacedWire,
    C: ControlWire,
    V: Watch,
    R: Wait,
>(
    rt: &R,
    plan: &Plan,
    live: &Live<O, L>,
    share: &mut Share<L>,
    watch: &V,
    line: &mut Line<A, W, T, C>,
) -> (End, IntervalSum)
    requires { 0 < share.old.parts }
    ensures interval { (trace : List Item) × (result.1 ≡ sum_of trace)
        × IsInterval A.did A.failures W.went W.failures T.did T.failures C.did
        (run_start_of L.start plan.now) plan.now.rounds line.old line.new share.old.amount
        share.new.amount trace result.0
        × (result.0 ≡ end.Memory → IsShort line.old trace) }
    ensures parts { share.new.parts ≡ share.old.parts }
{
    let sum = IntervalSum::new();
    match line {
        Line::Worker(number, wire) => worker_run(rt, plan, live, share, wire, *number, sum),
        Line::Port(number, true, wire) => port_interval(rt, plan, live, share, wire, *number, sum),
        Line::Port(number, is_begun, wire) => {
            let (end, sum) = port_run(rt, plan, live, share, wire, *number, sum);
            *is_begun = sum.is_first_entered();
            (end, sum)
        }
        Line::Ticker(wire) => ticker_run(rt, plan, live, share, wire, sum),
        Line::Control(ports, wire) => {
            let end = command_interval(rt, plan, *ports, watch, live, share, wire);
            (end, sum)
        }
    }
}

// Reports to a watch an interval that has ended.
fn note_interval<O: MibObject, L: Run, A, W, T, C, V: Watch, R: Wait>(
    rt: &R,
    live: &Live<O, L>,
    share: &mut Share<L>,
    watch: &mut V,
    line: &Line<A, W, T, C>,
    sum: &IntervalSum,
)
    ensures noted { (trace : List Item) → sum.now ≡ sum_of trace → (notes : List Note)
        × IsNoted L.start line.now share.old.amount trace notes
        × V.went watch.old notes watch.new }
    ensures amount { share.new.amount ≡ share.old.amount }
    ensures parts { share.new.parts ≡ share.old.parts }
{
    match line {
        Line::Worker(_, _) => watch.worked(rt, sum.worked),
        Line::Port(_, _, _) | Line::Control(_, _) => {}
        Line::Ticker(_) => watch.ticked(rt, live.counts(rt, share)),
    }
}

// One interval of a line, which is reported to its watch: how it ended.
fn pass<
    O: MibObject,
    L: Run,
    A: GatedWire,
    W: Wire,
    T: PacedWire,
    C: ControlWire,
    V: Watch,
    P: Pace,
    R: Wait,
>(
    rt: &R,
    plan: &Plan,
    live: &Live<O, L>,
    share: &mut Share<L>,
    watched: &mut Watched<A, W, T, C, V, P>,
) -> End
    requires { 0 < share.old.parts }
    ensures interval { IsNotedInterval A.did A.failures W.went W.failures T.did T.failures C.did V.went P.went
        (run_start_of L.start plan.now) plan.now.rounds (place_of watched.old share.old.amount)
        (place_of watched.new share.new.amount) result }
    ensures parts { share.new.parts ≡ share.old.parts }
{
    let (end, sum) = run_interval(rt, plan, live, share, &watched.watch, &mut watched.line);
    note_interval(rt, live, share, &mut watched.watch, &watched.line, &sum);
    end
}

// A fault has ended an interval: counts it, reports it to the watch, and waits as the pace does.
// Whether the line begins anew.
fn fail<A, W, T, C, V: Watch, P: Pace>(watched: &mut Watched<A, W, T, C, V, P>, end: End) -> bool
    ensures { HasFailed V.went P.went watched.old watched.new end result }
{
    let name = watched.line.name();
    watched.faults = watched.faults.saturating_add(1);
    watched.watch.failed(name, end, watched.faults);
    watched.pace.next()
}

// Whether a line goes on behind an interval that ended so.
fn goes_on<A, W, T, C, V: Watch, P: Pace>(watched: &mut Watched<A, W, T, C, V, P>, end: End) -> bool
    ensures { GoesOn V.went P.went watched.old watched.new end result }
{
    match end {
        End::Rounds => true,
        End::Closed | End::Full => false,
        End::Wire(_) | End::Memory => fail(watched, end),
    }
}

/// Lines that go on interval by interval.
pub struct Intervals;

impl LineKind for Intervals {
    ghost use Rattle.std.specs.Prelude.{◌^◌};

    ghost limit = { 2 ^ 32 };
}

impl<A: GatedWire, W: Wire, T: PacedWire, C: ControlWire, V: Watch, P: Pace> LineTask<
    Intervals,
    End,
> for Watched<A, W, T, C, V, P> {
    ghost use Rattle.live_laps.specs.Laps.{GoneOn};

    ghost gone = { GoneOn A.did A.failures W.went W.failures T.did T.failures C.did V.went P.went };

    /// Goes on interval by interval until one ends it, or 2^64 - 1 are done. Each interval of a worker and
    /// of the ticker is reported once to its watch; so is each fault, behind which the line waits by its
    /// pace; and so is the end. Nothing is kept of an interval but its counts.
    fn run_line<O: MibObject, L: Run, R: Wait>(
        self,
        rt: &R,
        plan: &Plan,
        live: &Live<O, L>,
        _place: usize,
        share: Share<L>,
    ) -> (Share<L>, Self, End) {
        let mut share = share;
        let mut watched = self;
        for _ in 0..u64::MAX {
            let end = pass(rt, plan, live, &mut share, &mut watched);
            if !goes_on(&mut watched, end) {
                let name = watched.line.name();
                watched.watch.ended(name, end);
                return (share, watched, end);
            }
        }
        (share, watched, End::Rounds)
    }
}
