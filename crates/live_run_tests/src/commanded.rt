//! Commands over a wire in memory: what each is answered, what is recorded of it, and what the ports
//! send.
ghost use Rattle.std.specs.Prelude.{◌≡◌, ◌<◌};

use crate::fixtures::worlds::built_in;
use crate::support::{OPERATOR, PEER_OF_PORT_1, Shown, history_of, loopback, plan_of};
use control_text::MAX_POLICY;
use history_core::{Entry, Kept};
use live_agent::End;
use live_control::{COMMAND_SPACE, ControlItem, Controlled, DropCounts, DropTally, control_run};
use live_lock::{Live, Run};
use rising::{Blank, BlankLog};
use std::alloc::Global;
use std::marker::Brand;
use std::sync::{Wait, ledger};
use std::test::Fail;
use wire_core::{FailingWire, MemoryWire, Packet, Wire, WireFault};

// What was dropped of datagrams.
#[derive(Drop)]
struct Dropped;

impl DropTally for Dropped {
    ghost use Rattle.std.specs.Prelude.{⊤};

    ghost reports = { λ _ _. ⊤ };

    fn dropped<R: Wait>(&self, _rt: &R) -> DropCounts {
        DropCounts {
            too_long: 1,
            malformed: 2,
            bad_version: 3,
            bad_kind: 4,
            memory: 5,
        }
    }
}

// The history of a bridge of two ports which has dropped requests of six unknown communities and of seven
// unknown contexts, and keeps no entry.
fn history(alloc: Global) -> Result<Kept<Shown>, Fail> {
    let mut served = built_in(alloc)?;
    served.world.bad_communities = 6;
    served.world.unknown_contexts = 7;
    history_of(alloc, served)
}

// A policy that nobody may use, as a command.
const NOBODY: &[u8] = b"policy
contexts = []
community = []
group = []
access = []
family = []
end
";

// The commands that are given, one behind another.
const COMMANDS: [&[u8]; 8] = [
    b"link 1 up\n",
    b"link 3 up\n",
    b"frame 1 00\n",
    b"counts",
    NOBODY,
    b"policy\ncontexts = 1\nend\n",
    b"policy\ncontexts = []\n",
    b"link 1 down\nlink 1 up\n",
];

// What the line did: how it ended, what was recorded, and its wires.
type Done<W, C> = (End, Vec<ControlItem>, Controlled<W, C>);

// The line runs over these wires.
fn commanded<L: Run, W: Wire, C: Wire, R: Wait>(
    rt: &R,
    alloc: Global,
    kept: Kept<Shown>,
    blank: ledger::Blank,
    number: Blank,
    moved: Blank,
    log: BlankLog<Entry>,
    wires: Controlled<W, C>,
) -> Result<Done<W, C>, Fail>
    requires name { blank.name ≡ L.name }
    requires all { blank.parts ≡ L.parts }
    requires number { number.name ≡ L.rise }
    requires moved { moved.name ≡ L.base_rise }
    requires log_name { log.name ≡ L.log_name }
    requires some { 0 < blank.parts }
    requires start { kept ≡ L.start }
{
    let (live, mut share) = Live::<Shown, L>::new(kept, blank, number, moved, log);
    let plan = plan_of(alloc, 20)?;
    let mut wires = wires;
    let mut space = vec![in alloc; 0u8; COMMAND_SPACE]?;
    let items = Vec::new(alloc);
    let (end, items) = control_run(
        rt, &plan, 2, &Dropped, &live, &mut share, &mut wires, &mut space, items,
    );
    Ok((end, items, wires))
}

// The same over a history in which nothing has happened.
fn run_over<W: Wire, C: Wire, R: Wait>(
    rt: &R,
    alloc: Global,
    wire: W,
    control: C,
) -> Result<Done<W, C>, Fail> {
    let kept = history(alloc)?;
    let blank = ledger::Blank::new(1);
    let wires = Controlled { wire, control };
    commanded::<Brand, W, C, R>(
        rt,
        alloc,
        kept,
        blank,
        Blank::new(),
        Blank::new(),
        BlankLog::new(),
        wires,
    )
}

// A wire that gives these commands, in order, and is closed behind them.
fn giving(alloc: Global, commands: &[&[u8]]) -> Result<MemoryWire, Fail> {
    let mut control = MemoryWire::new(alloc);
    for command in commands {
        control.give_datagram(loopback(OPERATOR), command)?;
    }
    Ok(control)
}

// Whether this is what was sent at a place.
fn is_answer(sent: &[Packet], place: usize, text: &[u8]) -> bool {
    match sent.get(place) {
        Some(packet) => packet.octets.as_slice() == text,
        None => false,
    }
}

// Whether an item is of an event that was entered.
fn is_entered(items: &[ControlItem], place: usize) -> bool {
    matches!(items.get(place), Some(ControlItem::Entered(_)))
}

#[test]
fn each_command_has_its_item_and_its_answer(rt: HostRuntime) -> Result<(), Fail> {
    let alloc = rt.alloc();
    let control = giving(alloc, &COMMANDS)?;
    let (end, items, wires) = run_over(&rt, alloc, MemoryWire::new(alloc), control)?;
    assert_eq!(rt; end, End::Closed);
    assert_eq!(rt; items.len(), 8);
    let sent = wires.control.sent();
    assert_eq!(rt; sent.len(), 8);
    assert!(rt; is_entered(&items, 0));
    assert!(rt; is_entered(&items, 4));
    assert!(rt; is_answer(sent, 1, b"badline\n"));
    assert!(rt; is_answer(sent, 2, b"badline\n"));
    assert!(rt; is_answer(sent, 3, b"counts 1 2 3 4 5 6 7\n"));
    assert!(rt; is_answer(sent, 4, b"policy ok\n"));
    assert!(rt; is_answer(sent, 5, b"policy refused\n"));
    assert!(rt; is_answer(sent, 6, b"policy refused\n"));
    assert!(rt; is_answer(sent, 7, b"badline\n"));
    Ok(())
}

// What port 1 sends as its link goes up: the RST BPDU of IEEE 802.1D-2004, 9.3.3, of a root bridge
// whose designated port proposes, as in the stored scripts.
const PROPOSAL: &[u8] =
    b"bpdu 1 0180C200000002000000000A0027424203000002020E800002000000000A00000000800002000000000A80010000140002000F000000000000000000\n";

#[test]
fn what_a_port_sends_goes_to_its_peer_and_is_answered(rt: HostRuntime) -> Result<(), Fail> {
    let alloc = rt.alloc();
    let control = giving(alloc, &[b"link 1 up"])?;
    let (_, _, wires) = run_over(&rt, alloc, MemoryWire::new(alloc), control)?;
    let sent = wires.wire.sent();
    assert_eq!(rt; sent.len(), 1);
    assert!(rt; sent[0].peer == loopback(PEER_OF_PORT_1));
    assert_eq!(rt; sent[0].octets.as_slice().len(), 60);
    assert!(rt; is_answer(wires.control.sent(), 0, PROPOSAL));
    Ok(())
}

// A policy of so many octets, as a command.
fn policy_of(alloc: Global, octets: usize) -> Result<Vec<u8>, Fail> {
    let text = b"contexts = []\ncommunity = []\ngroup = []\naccess = []\nfamily = []\n#";
    let mut command = Vec::new(alloc);
    command.extend_from_slice(b"policy\n")?;
    command.extend_from_slice(text)?;
    for _ in text.len() + 1..octets {
        command.extend_from_slice(b"x")?;
    }
    command.extend_from_slice(b"\nend\n")?;
    Ok(command)
}

#[test]
fn a_policy_has_at_most_64_kilobytes(rt: HostRuntime) -> Result<(), Fail> {
    let alloc = rt.alloc();
    let (most, more) = (
        policy_of(alloc, MAX_POLICY)?,
        policy_of(alloc, MAX_POLICY + 1)?,
    );
    let control = giving(alloc, &[most.as_slice(), more.as_slice()])?;
    let (_, items, wires) = run_over(&rt, alloc, MemoryWire::new(alloc), control)?;
    assert!(rt; is_entered(&items, 0));
    assert!(rt; !is_entered(&items, 1));
    assert!(rt; is_answer(wires.control.sent(), 0, b"policy ok\n"));
    assert!(rt; is_answer(wires.control.sent(), 1, b"policy refused\n"));
    Ok(())
}

#[test]
fn each_call_of_the_control_wire_fails(rt: HostRuntime) -> Result<(), Fail> {
    let alloc = rt.alloc();
    for call in 1..7u64 {
        let control = FailingWire::new(giving(alloc, &COMMANDS)?, call);
        let (end, items, _) = run_over(&rt, alloc, MemoryWire::new(alloc), control)?;
        let fault = if call % 2 == 0 {
            WireFault::Send
        } else {
            WireFault::Receive
        };
        assert_eq!(rt; end, End::Wire(fault));
        assert_eq!(rt; items.len() as u64, call / 2);
    }
    Ok(())
}

#[test]
fn a_command_is_answered_where_a_port_cannot_send(rt: HostRuntime) -> Result<(), Fail> {
    let alloc = rt.alloc();
    let wire = FailingWire::new(MemoryWire::new(alloc), 1);
    let (end, items, wires) = run_over(&rt, alloc, wire, giving(alloc, &COMMANDS)?)?;
    assert_eq!(rt; end, End::Wire(WireFault::Send));
    assert_eq!(rt; items.len(), 1);
    assert!(rt; is_answer(wires.control.sent(), 0, PROPOSAL));
    Ok(())
}
