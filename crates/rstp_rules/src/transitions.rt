//! How the state of a port follows from its role (IEEE 802.1D-2004 17.29 to 17.31).
ghost use Rattle.std.specs.Prelude.{◌≡◌};
ghost use Rattle.rstp_rules.specs.Lines.{IsSmall};
ghost use Rattle.rstp_rules.specs.Transitions.{has_changed_role, after_blocking, after_delay, after_root_role, after_role_change, after_discarding, after_announcement, after_first_transitions, after_synchronization, is_quick, after_advance, has_begun, change_time, with_change_started, with_change_spread, with_transition_counted};
ghost use Rattle.rstp_rules.specs.Turns.{with_change_spread_but, after_begin};

use crate::port::State;
use crate::row::{Context, PortInEvent, Timing};
use crate::vector::{is_same_times, is_same_vector};

impl PortInEvent {
    // Whether the role is another than before the roles were chosen.
    fn has_changed_role(&self) -> bool
        ensures { result ≡ has_changed_role self.now }
    {
        self.was.role != self.port.role
    }

    // A port that became alternate or backup discards, and its learned rows go (17.29.4, 17.31).
    fn block(&mut self)
        ensures { self.new ≡ after_blocking self.old }
    {
        if self.port.role.is_alternate_or_backup() && self.has_changed_role() {
            self.port.state = State::Discarding;
            self.port.fd_while = 0;
            self.port.tc_while = 0;
            self.flushed = true;
        }
    }

    // A discarding port that became root or designated waits the forward delay (17.29.2, 17.29.3).
    fn delay(&mut self, context: &Context)
        ensures { self.new ≡ after_delay context.now self.old }
    {
        if self.port.role.is_root_or_designated()
            && !self.was.role.is_root_or_designated()
            && self.port.state.is_discarding()
        {
            self.port.fd_while = context.timing.forward_delay;
        }
    }

    // A root port that became designated is a recent root (17.29.2).
    fn retire(&mut self, context: &Context)
        ensures { self.new ≡ after_root_role context.now self.old }
    {
        if self.was.role.is_root()
            && self.port.role.is_designated()
            && !self.port.state.is_discarding()
        {
            self.port.rr_while = context.timing.forward_delay;
        }
    }

    // A changed role has no agreement (17.29.2, 17.29.3).
    fn disagree(&mut self)
        ensures { self.new ≡ after_role_change self.old }
    {
        if self.has_changed_role() {
            self.port.agreed = false;
            self.port.agree = false;
        }
    }

    // A discarding port is no recent root (17.29.3).
    fn rest(&mut self)
        ensures { self.new ≡ after_discarding self.old }
    {
        if self.port.state.is_discarding() {
            self.port.rr_while = 0;
        }
    }

    // A designated port whose role, vector or times changed has something to send; a changed vector
    // is not agreed (17.27, 17.29.3).
    fn announce(&mut self, context: &Context)
        ensures { self.new ≡ after_announcement context.now self.old }
    {
        let same = is_same_vector(&self.was.vector, &self.port.vector);
        if self.port.role.is_designated()
            && (self.has_changed_role()
                || !same
                || !is_same_times(&context.was_times, &context.times))
        {
            self.port.new_info = true;
            self.port.agreed = self.port.agreed && same;
        }
    }

    /// What follows at once from the port's new role, vector and times (17.27, 17.29.2 to 17.29.4).
    pub fn turn(&mut self, context: &Context)
        ensures { self.new ≡ after_first_transitions context.now self.old }
    {
        self.block();
        self.delay(context);
        self.retire(context);
        self.disagree();
        self.rest();
        self.announce(context);
    }

    /// Synchronizes the port, where the root port was proposed to (17.21.14, 17.29.2, 17.29.3).
    pub fn synchronize(&mut self, context: &Context)
        ensures { self.new ≡ after_synchronization context.now self.old }
    {
        if self.port.role.is_root() {
            self.port.agree = true;
            self.port.new_info = true;
        } else if self.port.role.is_designated()
            && !self.port.oper_edge
            && !self.port.agreed
            && !self.port.state.is_discarding()
        {
            self.port.state = State::Discarding;
            self.port.fd_while = context.timing.forward_delay;
            self.port.rr_while = 0;
            self.port.new_info = true;
        }
    }

    // Whether the port forwards at once (17.29.2, 17.29.3).
    fn is_quick(&self, context: &Context, clear: bool) -> bool
        ensures { result ≡ is_quick context.now clear self.now }
    {
        context.timing.rstp_version
            && (self.port.role.is_root() && clear
                || self.port.role.is_designated() && (self.port.oper_edge || self.port.agreed))
    }

    /// The port's next state (17.29.2, 17.29.3, 17.30); `clear` says that no port but the root port
    /// is a recent root.
    pub fn advance(&mut self, context: &Context, clear: bool)
        ensures { self.new ≡ after_advance context.now clear self.old }
    {
        if self.is_quick(context, clear) {
            self.port.state = State::Forwarding;
        } else if self.port.role.is_root_or_designated() && self.port.fd_while == 0 {
            if self.port.state.is_discarding() {
                self.port.fd_while = context.timing.forward_delay;
            }
            self.port.state = self.port.state.next();
        }
    }

    /// Whether the port became forwarding in this event (17.31).
    pub fn has_begun(&self) -> bool
        ensures { result ≡ has_begun self.now }
    {
        self.port.state.is_forwarding() && !self.was.state.is_forwarding()
    }

    // For how many seconds a topology change is signalled (17.21.7).
    fn change_time(&self, timing: &Timing) -> u16
        requires { IsSmall timing.now }
        ensures { result ≡ change_time timing.now self.now }
    {
        if self.sends_rapid(timing) {
            timing.hello + 1
        } else {
            timing.max_age + timing.forward_delay
        }
    }

    // The port starts to signal a topology change, unless it does already (17.21.7).
    fn start_change(&mut self, timing: &Timing)
        requires { IsSmall timing.now }
        ensures { self.new ≡ with_change_started timing.now self.old }
    {
        if self.port.tc_while == 0 {
            self.port.tc_while = self.change_time(timing);
            self.port.new_info = true;
        }
    }

    /// A topology change that another port saw (17.21.18).
    pub(crate) fn spread(&mut self, timing: &Timing)
        requires { IsSmall timing.now }
        ensures { self.new ≡ with_change_spread timing.now self.old }
    {
        if self.inputs.on && self.port.role.is_root_or_designated() && !self.port.oper_edge {
            self.start_change(timing);
            self.flushed = true;
        }
    }

    /// The same, unless it is port `port` (17.21.18, 17.31).
    pub fn spread_but(&mut self, timing: &Timing, port: u16)
        requires { IsSmall timing.now }
        ensures { self.new ≡ with_change_spread_but timing.now port self.old }
    {
        if self.inputs.number != port {
            self.spread(timing);
        }
    }

    // Its forward transitions rise by one (RFC 4188 dot1dStpPortForwardTransitions).
    fn count(&mut self)
        ensures { self.new ≡ with_transition_counted self.old }
    {
        self.port.forward_transitions = self.port.forward_transitions.wrapping_add(1);
    }

    /// The port became forwarding (17.31).
    pub fn begin_forwarding(&mut self, timing: &Timing)
        requires { IsSmall timing.now }
        ensures { self.new ≡ after_begin timing.now self.old }
    {
        self.count();
        if !self.port.oper_edge {
            self.start_change(timing);
        }
    }
}
