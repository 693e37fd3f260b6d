// A master without its host: where it stands in a turn, and how it steps.
use crate::arming::Arming;
use crate::cursor::Cursor;
use crate::mark::Mark;
use crate::symbol::Symbol;
use host::Host;
use transfer::{ClockPair, Outcome, Transfer};
use wire::{Event, Pulls, Signal};

// Where a master stands in a turn; a contender is somewhere in its transfer.
#[derive(Clone, Copy)]
pub enum Stage {
    // no contender, or lost
    Idle,
    // from the pull that makes the start to the first fall
    StartPending(Cursor),
    Sending(Symbol, Cursor),
    // SDA was let go for the stop in the last tick
    StopPending(Cursor),
}

// Its clock, what it is armed with, and where it stands in a turn. `count` is how many ticks its clock still is low or
// high. Clauses see it by `master_model`: an `impl Model` would hide the range of the clock's counts, which the law
// `clocks_in_range` of a bank of masters needs.
#[derive(Drop)]
pub struct MasterState {
    pub(crate) clock: ClockPair,
    pub(crate) arming: Arming<Transfer>,
    stage: Stage,
    count: u8,
    pub(crate) pulls: Pulls,
}

impl MasterState {
    ghost use Rattle.std.specs.Prelude.{◌≡◌, Bool, true, Option};
    ghost use Rattle.master.specs.declared.mark.Mark.TheVariants.{Quiet, Told, Lost};
    ghost use Rattle.master.specs.Master.{mark_of, meaning_after};
    ghost use Rattle.master.specs.MasterState.{master_model, new_master, master_step, stage_step, contending_step, losing_step, with_stage};
    ghost use Rattle.master.specs.Symbol.{pulls_sda};
    ghost use Rattle.wire.specs.declared.event.Event.TheVariants.{Stop};
    ghost use Rattle.master.specs.Script.{transfers};
    ghost use Rattle.transfer.specs.Outcome.{outcome_model};

    pub(crate) fn new(clock: ClockPair) -> MasterState
        ensures { master_model result ≡ new_master transfers clock.low clock.high }
    {
        MasterState {
            clock,
            arming: Arming::Unarmed,
            stage: Stage::Idle,
            count: 0,
            pulls: Pulls::none(),
        }
    }

    // One tick; its host is told in it.
    pub(crate) fn step<H: Host>(&mut self, signal: Signal, host: &mut H) -> Mark
        ensures after { master_model self.new ≡
            (master_step transfers (master_model self.old) signal).0 }
        ensures mark { result ≡ mark_of (master_step transfers (master_model self.old) signal).1 }
        ensures host { H.Host.meaning host.new ≡ meaning_after H.Host.behaviour
            (H.Host.meaning host.old) (master_step transfers (master_model self.old) signal).1 }
    {
        // by event first: all masters meet the same one, so its branch is foreseen from the second on
        match (signal.event, &mut self.stage) {
            (Event::SteadyHigh, Stage::Idle) if signal.free_and_high => self.contend(),
            (Event::SteadyLow, Stage::StartPending(_) | Stage::Sending(..)) => {
                self.count = self.count.saturating_sub(1);
                self.pulls.scl = self.count > 0;
                Mark::Quiet
            }
            (Event::SteadyHigh, Stage::StartPending(_) | Stage::Sending(..)) => {
                self.count = self.count.saturating_sub(1);
                self.pulls.scl = self.count == 0;
                Mark::Quiet
            }
            (Event::Fall, Stage::StartPending(cursor)) => {
                let symbol = cursor.symbol();
                self.stage = Stage::Sending(symbol, *cursor);
                self.pull_for(symbol)
            }
            (Event::Fall, Stage::Sending(symbol, cursor)) => {
                cursor.advance(signal.bit.unwrap_or(true));
                *symbol = cursor.symbol();
                let symbol = *symbol;
                self.pull_for(symbol)
            }
            (Event::Rise(sda), Stage::Sending(symbol, cursor)) => match (*symbol, sda) {
                // 1 and the repeated start are lost under a low (I2C specification 2.1, section 8.2)
                (Symbol::One | Symbol::RepeatedStart, false) => self.lose(),
                (Symbol::RepeatedStart, true) => {
                    self.pulls.sda = true;
                    self.count_high()
                }
                (Symbol::Stop, _) => {
                    self.stage = Stage::StopPending(*cursor);
                    self.pulls.sda = false;
                    self.count_high()
                }
                _ => self.count_high(),
            },
            (Event::Start, Stage::Sending(Symbol::One, _)) => self.lose(),
            (Event::Start, Stage::StartPending(_) | Stage::Sending(..))
            | (Event::Rise(_), Stage::StartPending(_)) => self.count_high(),
            (Event::Stop, _) => self.stop(host),
            (_, Stage::StopPending(_)) => self.lose(),
            _ => Mark::Quiet,
        }
    }

    // An armed master pulls SDA, for the start of its turn (I2C specification 2.1, section 6.2).
    fn contend(&mut self) -> Mark
        ensures after { master_model self.new ≡
            (contending_step transfers (master_model self.old) (master_model self.old).arming).0 }
        ensures mark { result ≡ Quiet }
    {
        if let Arming::Armed(transfer) = self.arming {
            self.stage = Stage::StartPending(Cursor::new(transfer));
            self.count = 0;
            self.pulls = Pulls {
                scl: false,
                sda: true,
            };
        }
        Mark::Quiet
    }

    // At a rise or a start the high count begins (I2C specification 2.1, section 8.1).
    fn count_high(&mut self) -> Mark
        ensures after { master_model self.new ≡
            with_stage transfers (master_model self.old) (master_model self.old).stage
            self.old.clock.high self.old.pulls.scl self.old.pulls.sda }
        ensures mark { result ≡ Quiet }
    {
        self.count = self.clock.high();
        Mark::Quiet
    }

    // At a fall the clock is pulled, and SDA as the symbol shown asks.
    fn pull_for(&mut self, symbol: Symbol) -> Mark
        ensures after { master_model self.new ≡
            with_stage transfers (master_model self.old) (master_model self.old).stage
            self.old.clock.low true (pulls_sda symbol) }
        ensures mark { result ≡ Quiet }
    {
        self.count = self.clock.low();
        self.pulls = Pulls {
            scl: true,
            sda: symbol.pulls_sda(),
        };
        Mark::Quiet
    }

    // A loser lets go of both lines, stays armed and waits.
    fn lose(&mut self) -> Mark
        ensures after { master_model self.new ≡ (losing_step transfers (master_model self.old)).0 }
        ensures mark { result ≡ Lost }
    {
        self.stage = Stage::Idle;
        self.count = 0;
        self.pulls = Pulls::none();
        Mark::Lost
    }

    // At a stop a master that waits for it tells its host. Not inlined, so that other ticks make no room for an outcome.
    #[inline(never)]
    fn stop<H: Host>(&mut self, host: &mut H) -> Mark
        ensures after { (bit : Option Bool) (free : Bool) → master_model self.new ≡
            (stage_step transfers (master_model self.old) (master_model self.old).stage Stop bit free).0 }
        ensures mark { (bit : Option Bool) (free : Bool) → result ≡ mark_of
            (stage_step transfers (master_model self.old) (master_model self.old).stage Stop bit free).1 }
        ensures host { (bit : Option Bool) (free : Bool) → H.Host.meaning host.new ≡
            meaning_after H.Host.behaviour (H.Host.meaning host.old)
            (stage_step transfers (master_model self.old) (master_model self.old).stage Stop bit free).1 }
    {
        match &self.stage {
            Stage::StopPending(cursor) => {
                let outcome = cursor.outcome();
                self.tell(outcome, host)
            }
            Stage::Idle | Stage::StartPending(_) | Stage::Sending(..) => Mark::Quiet,
        }
    }

    // Once its host is told a master is as a new one.
    fn tell<H: Host>(&mut self, outcome: Outcome, host: &mut H) -> Mark
        ensures after { master_model self.new ≡
            new_master transfers self.old.clock.low self.old.clock.high }
        ensures mark { result ≡ Told }
        ensures host { H.Host.meaning host.new ≡
            H.Host.behaviour.told (H.Host.meaning host.old) (outcome_model outcome) }
    {
        *self = MasterState::new(self.clock);
        host.told(&outcome);
        Mark::Told
    }
}
