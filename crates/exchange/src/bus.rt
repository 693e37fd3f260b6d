// The bus: the wire, a bank of masters and a bank of ports.
ghost use Rattle.std.specs.Prelude.{◌≤◌, length};
ghost use Rattle.law.specs.Limits.{most_masters};

use crate::masters::Masters;
use crate::ports::Ports;
use crate::run::{MOST_TICKS, Run, load};
use law::{MOST_MASTERS, Tick};
use master::Mark;
use transfer::Refusal;
use wire::Wire;

/// A bus between two ticks. It cannot be copied, and closing it moves it: a closed bus is not ticked.
// Clauses see it by `bus_model`: the value of a model cannot name what its banks stand for.
#[derive(Drop)]
pub struct Bus<M: Masters, P: Ports> {
    wire: Wire,
    masters: M,
    ports: P,
    // a tick has a mark for each master
    ghost few_masters: { length M.Masters.hosts ≤ most_masters },
}

// Made, looked into and closed.
impl<M: Masters, P: Ports> Bus<M, P> {
    ghost use Rattle.std.specs.Prelude.{◌≡◌, ◌≤◌, length};
    ghost use Rattle.law.specs.AskedLaw.{EveryAsked};
    ghost use Rattle.law.specs.Bank.{bank_map};
    ghost use Rattle.law.specs.BusModel.{new_bus, is_at_rest};
    ghost use Rattle.law.specs.Facts.{StringLaws, ByteLaws};
    ghost use Rattle.law.specs.Law.{EveryUse};
    ghost use Rattle.law.specs.Limits.{most_masters, most_ports};
    ghost use Rattle.exchange.specs.Bus.{bus_model};
    ghost use Rattle.master.specs.Master.{reset_hosted_master};
    ghost use Rattle.port.specs.Port.{reset_port};

    /// A bus of 1 to 8 masters and at most 16 ports. The parts are brought to rest: no master is armed, and every port is
    /// out. With the bus comes the law over every use of it from here on.
    pub fn new(mut masters: M, mut ports: P) -> Bus<M, P>
        requires some_master { 1 ≤ length M.Masters.hosts }
        requires few_masters { length M.Masters.hosts ≤ most_masters }
        requires few_ports { length P.Ports.devices ≤ most_ports }

        ensures made { bus_model result ≡
            new_bus M.Masters.hosts P.Ports.devices
            (M.Masters.model masters) (P.Ports.model ports) }
        ensures hosts { M.Masters.same_hosts masters result.masters }
        ensures devices { P.Ports.same_devices ports result.ports }

        ensures law { EveryUse M.Masters.hosts P.Ports.devices
            (M.Masters.model masters) (P.Ports.model ports) }
        ensures strings { StringLaws P.Ports.devices P.Ports.devices }
        ensures bytes { ByteLaws P.Ports.devices }
        ensures asked { EveryAsked M.Masters.hosts P.Ports.devices
            (M.Masters.model masters) (P.Ports.model ports) }
    {
        masters.reset();
        ports.reset();
        Bus {
            wire: Wire::new(),
            masters,
            ports,
        }
    }

    /// The masters, each with its host, as they stand between two ticks.
    pub fn masters(&self) -> &M
        ensures { result.now ≡ self.now.masters }
    {
        &self.masters
    }

    /// The ports, each with its device, as they stand between two ticks.
    pub fn ports(&self) -> &P
        ensures { result.now ≡ self.now.ports }
    {
        &self.ports
    }

    /// The bus is free and no master is armed.
    pub fn at_rest(&self) -> bool
        ensures { result ≡ is_at_rest _ _ (bus_model self.now) }
    {
        !self.wire.busy && !self.masters.any_armed()
    }

    /// Hands the masters with their hosts and the ports with their devices back at rest, as at the making. Hosts and
    /// devices stay as they stand, also where a turn is unfinished.
    pub fn close(mut self) -> (M, P)
        ensures hosts { M.Masters.same_hosts self.masters result.0 }
        ensures devices { P.Ports.same_devices self.ports result.1 }
        ensures masters { M.Masters.model result.0 ≡
            bank_map reset_hosted_master M.Masters.hosts (M.Masters.model self.masters) }
        ensures ports { P.Ports.model result.1 ≡
            bank_map reset_port P.Ports.devices (P.Ports.model self.ports) }
    {
        self.masters.reset();
        self.ports.reset();
        let Bus {
            wire: _,
            masters,
            ports,
        } = self;
        (masters, ports)
    }
}

// Armed and ticked.
impl<M: Masters, P: Ports> Bus<M, P> {
    ghost use Rattle.std.specs.Prelude.{◌≡◌};
    ghost use Rattle.transfer.specs.Refusal.{answer};
    ghost use Rattle.law.specs.BusModel.{arm_at, NeverHold, no_holds, tick_at};
    ghost use Rattle.exchange.specs.Bus.{TicksTo, bus_model};

    /// Arms master number `master`, counted from 0, with what its host wants now. It is refused where there is no such
    /// master, where it is armed, and where its host wants nothing; a refusal changes nothing.
    pub fn arm(&mut self, master: usize) -> Result<(), Refusal>
        ensures armed { (answer (λ u. u) result, bus_model self.new) ≡
            arm_at _ _ (bus_model self.old) master }
        ensures hosts { M.Masters.same_hosts self.old.masters self.new.masters }
        ensures ports { self.new.ports ≡ self.old.ports }
    {
        self.masters.arm(master)
    }

    /// One tick: what all parts pull gives the levels, the levels give the event, and every master and every port steps on
    /// it. Only one thing is left open: what the devices answer to hold, as far as they leave it open. Where none of them
    /// may hold, nothing is.
    pub fn tick(&mut self) -> Tick
        ensures answered { TicksTo self.old result self.new }
        ensures unheld { NeverHold P.Ports.devices → (result, bus_model self.new) ≡
            tick_at _ _ (bus_model self.old) (no_holds P.Ports.devices) }
    {
        let levels = self.masters.pulls().or(self.ports.pulls()).levels();
        let signal = self.wire.step(levels);
        let mut marks = [Mark::Quiet; MOST_MASTERS];
        self.masters.step(signal, &mut marks);
        self.ports.step(signal);
        Tick {
            levels,
            event: signal.event,
            marks,
        }
    }
}

// Ticked until it is at rest.
impl<M: Masters, P: Ports> Bus<M, P> {
    ghost use Rattle.std.specs.Prelude.{◌≡◌, ◌≤◌};
    ghost use Rattle.transfer.specs.Refusal.{answer};
    ghost use Rattle.law.specs.declared.tick.Tick.{Tick};
    ghost use Rattle.law.specs.BusModel.{NeverHold, no_holds, told_at};
    ghost use Rattle.law.specs.Limits.{most_masters};
    ghost use Rattle.law.specs.RunModel.{some_count, run_at};
    ghost use Rattle.exchange.specs.Bus.{TicksTo, RunsTo, bus_model};
    ghost use Rattle.exchange.specs.Run.{run_model};

    /// Ticks until the bus is at rest, `n` times at most; above [`MOST_TICKS`] it is refused and changes nothing.
    // It counts its ticks by hand: a run may end at either, and its answer is these counts.
    pub fn run(&mut self, n: u32) -> Result<Run, Refusal>
        ensures answered { RunsTo self.old n result self.new }
        ensures unheld { NeverHold P.Ports.devices → (answer run_model result, bus_model self.new) ≡
            run_at _ _ (bus_model self.old) n (λ _. no_holds P.Ports.devices) }
    {
        if n > MOST_TICKS {
            return Err(Refusal::TooManyTicks);
        }
        let mut ticks = 0;
        let mut outcomes = 0;
        let mut busy = 0;
        let (ticks, outcomes, busy) = loop {
            if ticks == n || self.at_rest() {
                break (ticks, outcomes, busy);
            }
            outcomes += self.outcomes_of_tick();
            ticks += 1;
            if self.wire.busy {
                busy += 1;
            }
        };
        Ok(Run {
            ticks,
            outcomes,
            load: load(busy, ticks),
        })
    }

    // One tick, and how many outcomes it told.
    fn outcomes_of_tick(&mut self) -> u32
        ensures few { result ≤ most_masters }
        ensures all { result ≡ some_count (told_at _ _ (bus_model self.old)) }
        ensures after { (t : Tick) × TicksTo self.old t self.new }
    {
        self.tick().outcome_count()
    }
}
