//! Laws of the spanning tree, for every list of happenings from the opening on in which each change
//! of settings is followed by settling them; and that each event is a function of the settings and
//! the tree: what its relation allows is what the function gives, and always that. Each function
//! does nothing: its contract is the law.
//!
//! Not true here, and not claimed: that the learned rows of a port go when it is blocked by
//! synchronization (they stay); that no port forwards while it is off between a change of its
//! enable setting and settling it, and, where its link goes down in between, until it starts anew.
ghost use Rattle.std.specs.Prelude.{◌≡◌, ◌≢◌, ◌≤◌, ◌↔◌, ℕ, Bool, List, length, map, All, Contains};
ghost use Rattle.frame_core.specs.declared.bpdu.Bpdu.{Bpdu};
ghost use Rattle.frame_core.specs.declared.mac.Mac.{Mac};
ghost use Rattle.rstp_settings.specs.Table.{Table};
ghost use Rattle.rstp_settings.specs.declared.config.PortConfig.{PortConfig};
ghost use Rattle.rstp_rules.specs.declared.row.Best.{Best};
ghost use Rattle.rstp_rules.specs.declared.row.PortInEvent.{PortInEvent};
ghost use Rattle.rstp_rules.specs.declared.row.Timing.{Timing};
ghost use Rattle.rstp_rules.specs.Turns.{turns, another_starts, with_changes_signalled, AreDistinct};
ghost use Rattle.rstp_rules.specs.Lines.{own_id};
ghost use Rattle.rstp_rules.specs.Roles.{IsBest};
ghost use Rattle.rstp_core.specs.declared.rstp.Outcome.{Outcome};
ghost use Rattle.rstp_core.specs.Tree.{Tree, HasPort, rows_of, port_at, Ticks, Arrives, Links, Settles};
ghost use Rattle.rstp_core.specs.Passes.{after_turns_at_once, after_hello_steps};
ghost use Rattle.rstp_core.specs.Steps.{event_context, roled_rows, ready_rows, tick_step, arrival_step, link_step, settling_step, IsStep};
ghost use Rattle.rstp_core.specs.Runs.{Happening, Happens, Runs, event_by, IsRootPort, LeavesActivity, Restarts, IsAnew};
ghost use Rattle.rstp_core.specs.Legal.{MayLearn, HasRoles, IsLegal};

use rstp_settings::settings::MAX_PORTS;

/// There is one root vector.
pub fn root_is_one()
    ensures { (bs : List Best) (a b : Best) → IsBest bs a → IsBest bs b → a ≡ b }
{}

/// After every run settings and tree are legal.
pub fn runs_are_legal()
    ensures { (a : Mac) (cs : List PortConfig) (hs : List Happening) (s : Table) (t : Tree)
        → Runs a cs hs s t → IsLegal s t }
{}

/// The roles are those of the whole tree: the root vector is the best of the candidates of the
/// ports as they are, and each port has the role, and the vector, that it gives (17.21.25).
pub fn roles_of_the_whole_tree()
    ensures { (a : Mac) (cs : List PortConfig) (hs : List Happening) (s : Table) (t : Tree)
        → Runs a cs hs s t → HasRoles s t }
{}

/// No port learns or forwards while it is off, disabled, alternate or backup.
pub fn only_active_ports_learn_or_forward()
    ensures { (a : Mac) (cs : List PortConfig) (hs : List Happening) (s : Table) (t : Tree)
        → Runs a cs hs s t → All MayLearn (rows_of s t) }
{}

/// Of at most [`MAX_PORTS`] ports at most one is the root port.
pub fn root_port_is_one()
    ensures { (a : Mac) (cs : List PortConfig) (hs : List Happening) (s : Table) (t : Tree)
        → length cs ≤ MAX_PORTS → Runs a cs hs s t
        → (other port : ℕ) → IsRootPort t other → IsRootPort t port → other ≡ port }
{}

/// The address in the bridge identifier of a root port's vector is another bridge's, with at most
/// [`MAX_PORTS`] ports.
pub fn root_port_hears_another()
    ensures { (a : Mac) (cs : List PortConfig) (hs : List Happening) (s : Table) (t : Tree)
        → length cs ≤ MAX_PORTS → Runs a cs hs s t
        → (port : ℕ) → IsRootPort t port → (port_at t port).vector.bridge.address ≢ a }
{}

/// Where the root is this bridge by its whole identifier, priority included, there is no root port,
/// and nowhere else.
pub fn root_bridge_has_no_root_port()
    ensures { (a : Mac) (cs : List PortConfig) (hs : List Happening) (s : Table) (t : Tree)
        → Runs a cs hs s t → (t.facts.root.vector.root ≡ own_id s a) ↔ ((port : ℕ) →
        ¬ IsRootPort t port) }
{}

/// A port that learned or forwarded and is now disabled, alternate or backup loses its learned rows
/// in that event.
pub fn leaving_activity_flushes()
    ensures { (a : Mac) (cs : List PortConfig) (hs : List Happening) (s r : Table) (t u : Tree)
        (h : Happening) (out : Outcome) → Runs a cs hs s t → Happens h s t r u out
        → (port : ℕ) → LeavesActivity t u port → Contains out.flushed.items port }
{}

/// A port that starts anew, as its link changes or settling finds another version or enable
/// setting, loses its learned rows in that event, even where it is designated again, or forwards,
/// at the event's end.
pub fn starting_anew_flushes()
    ensures flushed { (a : Mac) (cs : List PortConfig) (hs : List Happening) (s r : Table)
        (t u : Tree)
        (h : Happening) (out : Outcome) → Runs a cs hs s t → Happens h s t r u out
        → (port : ℕ) → HasPort t port → Restarts h s t port → Contains out.flushed.items port }
    ensures anew { (a : Mac) (cs : List PortConfig) (hs : List Happening) (s r : Table) (t u : Tree)
        (h : Happening) (out : Outcome) → Runs a cs hs s t → Happens h s t r u out
        → (port : ℕ) → HasPort t port → Restarts h s t port → IsAnew r u port }
{}

/// The turns in ascending order make one change of each port: it starts a topology change where
/// it began to forward and is not at the edge; and it signals one, and its learned rows go, where
/// another port starts one and it is on, root or designated, and not at the edge (17.31). So it is
/// of any rows of which no two are of one port, and of each event after every run.
pub fn turns_are_one_change()
    ensures rows { (t : Timing) (rows : List PortInEvent) → AreDistinct rows
        → turns t rows ≡ map (λ r. with_changes_signalled t (another_starts rows r) r) rows }
    ensures event { (a : Mac) (cs : List PortConfig) (hs : List Happening) (s : Table) (t : Tree)
        (h : Happening)
        → Runs a cs hs s t → let e = event_by h s t in
        let c = event_context e in
        ready_rows e ≡ after_hello_steps e.tick c (after_turns_at_once c (roled_rows e)) }
{}

/// What a tick leaves and gives is what its function says, and nothing else.
pub fn tick_is_a_step()
    ensures { (s : Table) (t u : Tree) (out : Outcome) →
        Ticks s t u out ↔ IsStep (tick_step s t) t u out }
{}

/// What a BPDU leaves and gives is what its function says, and nothing else.
pub fn arrival_is_a_step()
    ensures { (s : Table) (port : ℕ) (b : Bpdu) (t u : Tree) (out : Outcome)
        → Arrives s port b t u out ↔ IsStep (arrival_step s port b t) t u out }
{}

/// What a link event leaves and gives is what its function says, and nothing else.
pub fn link_is_a_step()
    ensures { (s : Table) (port : ℕ) (up : Bool) (t u : Tree) (out : Outcome)
        → Links s port up t u out ↔ IsStep (link_step s port up t) t u out }
{}

/// What settling leaves and gives is what its function says, and nothing else.
pub fn settling_is_a_step()
    ensures { (s : Table) (t u : Tree) (out : Outcome)
        → Settles s t u out ↔ IsStep (settling_step s t) t u out }
{}
