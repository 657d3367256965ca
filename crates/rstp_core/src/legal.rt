//! Laws of legal settings and trees: of what holds between events, where each change of settings
//! has been settled. The opening is legal and each event keeps it, so that these hold after every
//! run, also after one that begins later. Each function does nothing: its contract is the law.
ghost use Rattle.std.specs.Prelude.{◌≡◌, ◌≢◌, ◌≤◌, ◌↔◌, ℕ, List, length, Contains};
ghost use Rattle.frame_core.specs.declared.mac.Mac.{Mac};
ghost use Rattle.rstp_settings.specs.Table.{Table, opening};
ghost use Rattle.rstp_settings.specs.declared.config.PortConfig.{PortConfig};
ghost use Rattle.rstp_rules.specs.Vectors.{port_number};
ghost use Rattle.rstp_rules.specs.Lines.{own_id};
ghost use Rattle.rstp_core.specs.declared.rstp.Outcome.{Outcome};
ghost use Rattle.rstp_core.specs.Tree.{Tree, HasPort, port_at, rows_of, opening_tree};
ghost use Rattle.rstp_core.specs.Passes.{before_turns, after_turns_at_once, after_hello_steps};
ghost use Rattle.rstp_core.specs.Steps.{event_context, roled_rows, ready_rows};
ghost use Rattle.rstp_core.specs.Runs.{Happening, Happens, Leads, event_by, IsRootPort, LeavesActivity, Restarts, IsAnew};
ghost use Rattle.rstp_core.specs.Legal.{IsLegal, AreNumbered, IsRootBridge, IsSameBridge};

use rstp_settings::settings::MAX_PORTS;

/// The opening is legal.
pub fn opening_is_legal()
    ensures { (a : Mac) (cs : List PortConfig) → IsLegal (opening (length cs)) (opening_tree a cs) }
{}

/// Each event leaves what was legal legal.
pub fn events_keep_legal()
    ensures { (h : Happening) (s r : Table) (t u : Tree) (out : Outcome)
        → IsLegal s t → Happens h s t r u out → IsLegal r u }
{}

/// A run that begins with legal settings and a legal tree leaves them legal.
pub fn runs_keep_legal()
    ensures { (s : Table) (t : Tree) (hs : List Happening) (r : Table) (u : Tree)
        → IsLegal s t → Leads s t hs r u → IsLegal r u }
{}

/// The bridge address and the configurations of the ports stay.
pub fn runs_keep_the_bridge()
    ensures { (s : Table) (t : Tree) (hs : List Happening) (r : Table) (u : Tree)
        → IsLegal s t → Leads s t hs r u → IsSameBridge t u }
{}

/// Of at most [`MAX_PORTS`] ports at most one is the root port.
pub fn root_port_is_one()
    ensures { (s : Table) (t : Tree) → IsLegal s t → length t.ports ≤ MAX_PORTS
        → (other port : ℕ) → IsRootPort t other → IsRootPort t port → other ≡ port }
{}

/// The address in the bridge identifier of a root port's vector is another bridge's, with at most
/// [`MAX_PORTS`] ports.
pub fn root_port_hears_another()
    ensures { (s : Table) (t : Tree) → IsLegal s t → length t.ports ≤ MAX_PORTS
        → (port : ℕ) → IsRootPort t port → (port_at t port).vector.bridge.address ≢ t.address }
{}

/// There is no root port exactly where the root vector is this bridge's own.
pub fn no_root_port_at_the_root()
    ensures { (s : Table) (t : Tree) → IsLegal s t →
        ((port : ℕ) → ¬ IsRootPort t port) ↔ IsRootBridge s t }
{}

/// The root vector is this bridge's own exactly where the root is this bridge's whole identifier,
/// priority and address.
pub fn root_is_this_bridge()
    ensures { (s : Table) (t : Tree) → IsLegal s t
        → (t.facts.root.vector.root ≡ own_id s t.address) ↔ IsRootBridge s t }
{}

/// The number of the root port is 0 exactly there, with at most [`MAX_PORTS`] ports.
pub fn root_port_is_0_at_the_root()
    ensures { (s : Table) (t : Tree) → IsLegal s t → length t.ports ≤ MAX_PORTS
        → (port_number t.facts.root.receiver ≡ 0) ↔ IsRootBridge s t }
{}

/// A port that learned or forwarded and is now disabled, alternate or backup loses its learned rows
/// in that event.
pub fn leaving_activity_flushes()
    ensures { (h : Happening) (s r : Table) (t u : Tree) (out : Outcome) → IsLegal s t →
        Happens h s t r u out
        → (port : ℕ) → LeavesActivity t u port → Contains out.flushed.items port }
{}

/// The rows of the ports are of port 1, port 2, .., in this order: as an event begins, and as its
/// turns are taken.
pub fn rows_are_numbered()
    ensures begun { (s : Table) (t : Tree) → IsLegal s t → AreNumbered (rows_of s t) }
    ensures turns { (h : Happening) (s : Table) (t : Tree) → IsLegal s t
        → let e = event_by h s t in AreNumbered (before_turns (event_context e) (roled_rows e)) }
{}

/// In each event the turns in ascending order make one change of each port (17.31): `ready_rows`
/// is what the event makes of the rows before it sends.
pub fn turns_of_an_event_are_one_change()
    ensures { (h : Happening) (s : Table) (t : Tree) → IsLegal s t → let e = event_by h s t in
        let c = event_context e in
        ready_rows e ≡ after_hello_steps e.tick c (after_turns_at_once c (roled_rows e)) }
{}

/// A port that starts anew loses its learned rows in that event, even where it is designated again,
/// or forwards, at the event's end: so it does where the version changes. What it then is follows
/// from whether it is on, the version and its edge setting alone.
pub fn starting_anew_flushes()
    ensures flushed { (h : Happening) (s r : Table) (t u : Tree) (out : Outcome) → IsLegal s t →
        Happens h s t r u out
        → (port : ℕ) → HasPort t port → Restarts h s t port → Contains out.flushed.items port }
    ensures anew { (h : Happening) (s r : Table) (t u : Tree) (out : Outcome) → IsLegal s t →
        Happens h s t r u out
        → (port : ℕ) → HasPort t port → Restarts h s t port → IsAnew r u port }
{}
