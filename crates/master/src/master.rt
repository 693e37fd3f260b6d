// A master with the host that it serves.
use crate::arming::Arming;
use crate::mark::Mark;
use crate::state::MasterState;
use host::Host;
use transfer::{ClockPair, Refusal};
use wire::{Pulls, Signal};

/// A master of a bus: it makes the transfers that its host wants, and tells the host what came of them.
// Clauses see it by `hosted_master`: the value of a model cannot name what a host means.
#[derive(Drop)]
pub struct Master<H> {
    state: MasterState,
    host: H,
}

impl<H: Host> Master<H> {
    ghost use Rattle.std.specs.Prelude.{◌≡◌};
    ghost use Rattle.master.specs.Master.{hosted_master, new_hosted_master};

    /// A master at this clock with nothing to do: it pulls neither line and is not armed.
    pub fn new(clock: ClockPair, host: H) -> Master<H>
        ensures made { hosted_master H.Host result ≡
            new_hosted_master _ clock.low clock.high (H.Host.meaning host) }
        ensures same { result.host ≡ host }
    {
        Master {
            state: MasterState::new(clock),
            host,
        }
    }

    /// For how many ticks it keeps the clock low at least, and then lets it be high at most (I2C specification 2.1, section
    /// 8.1).
    pub fn clock(&self) -> ClockPair
        ensures { result ≡ self.now.state.clock }
    {
        self.state.clock
    }

    /// The host, as it stands, also in the middle of a turn.
    pub fn host(&self) -> &H
        ensures { result.now ≡ self.now.host }
    {
        &self.host
    }

    /// The host, as it stands; an unfinished turn is dropped.
    pub fn into_host(self) -> H
        ensures { result ≡ self.host }
    {
        let Master { state: _, host } = self;
        host
    }
}

// Its part in a bus.
impl<H: Host> Master<H> {
    ghost use Rattle.std.specs.Prelude.{◌≡◌};
    ghost use Rattle.transfer.specs.Refusal.{answer};
    ghost use Rattle.master.specs.Master.{SameHost, hosted_pulls, hosted_is_armed, reset_hosted_master, hosted_arm};
    ghost use Rattle.master.specs.Master.{hosted_step, hosted_mark, hosted_master};

    /// Which lines it pulls low in the tick to come.
    pub fn pulls(&self) -> Pulls
        ensures { result ≡ hosted_pulls _ (hosted_master H.Host self.now) }
    {
        self.state.pulls
    }

    /// From an accepted `arm` until its host is told an outcome, or `reset`.
    pub fn is_armed(&self) -> bool
        ensures { result ≡ hosted_is_armed _ (hosted_master H.Host self.now) }
    {
        self.state.arming.is_armed()
    }

    /// As at its making, with the same clock and host; an unfinished turn is dropped, and the host is not told.
    pub fn reset(&mut self)
        ensures same { SameHost self.old self.new }
        ensures after { hosted_master H.Host self.new ≡
            reset_hosted_master _ (hosted_master H.Host self.old) }
    {
        self.state = MasterState::new(self.state.clock);
    }

    /// Arms it with the transfer that its host wants now. It is refused where it is armed, then where the host wants
    /// nothing, and a refusal changes nothing.
    pub fn arm(&mut self) -> Result<(), Refusal>
        ensures same { SameHost self.old self.new }
        ensures after { (answer (λ u. u) result, hosted_master H.Host self.new) ≡
            hosted_arm _ (hosted_master H.Host self.old) }
    {
        if self.is_armed() {
            return Err(Refusal::ArmedAlready);
        }
        let (wanted, transfer) = self.host.want();
        if !wanted {
            return Err(Refusal::NothingWanted);
        }
        self.state.arming = Arming::Armed(transfer);
        Ok(())
    }

    /// One tick; the host of a master whose stop is seen is told the outcome of its transfer.
    pub fn step(&mut self, signal: Signal) -> Mark
        ensures mark { result ≡ hosted_mark _ signal (hosted_master H.Host self.old) }
        ensures after { hosted_master H.Host self.new ≡
            hosted_step _ signal (hosted_master H.Host self.old) }
    {
        self.state.step(signal, &mut self.host)
    }
}
