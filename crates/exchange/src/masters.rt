// Banks of masters: one master and the rest.
ghost use Rattle.std.specs.Prelude.{◌≡◌, List, [], ◌∷◌};
ghost use Rattle.host.specs.Host.{HostBehaviour};
ghost use Rattle.transfer.specs.Refusal.{answer};
ghost use Rattle.law.specs.Bank.{any_true, Bank, bank_map, bank_list};
ghost use Rattle.law.specs.BusModel.{all_pulls, arm_master_at, marks_over, ClocksInRange};
ghost use Rattle.master.specs.Master.{HostedMaster, SameHost, hosted_pulls, hosted_is_armed, reset_hosted_master};
ghost use Rattle.master.specs.Master.{hosted_step, hosted_mark, hosted_master};
ghost use Rattle.std.proofs.Common.{rules};

use crate::end::End;
use host::Host;
use master::{Mark, Master};
use transfer::Refusal;
use wire::{Pulls, Signal};

/// A bank of masters, reached by number from 0 on.
pub trait Masters {
    // What the hosts of the masters mean, in order.
    ghost hosts: { List HostBehaviour };

    // The masters as the rules see them.
    ghost model: { Self → Bank HostedMaster hosts };

    // One bank has the very hosts of another.
    ghost same_hosts: { Self → Self → Type 0 };

    /// Which lines some master pulls low in the tick to come.
    fn pulls(&self) -> Pulls
        ensures { result ≡ all_pulls (bank_list hosted_pulls hosts (model self.now)) };

    /// Whether some master is armed.
    fn any_armed(&self) -> bool
        ensures { result ≡ any_true (bank_list hosted_is_armed hosts (model self.now)) };

    /// Each master as at its making: none is armed or pulls.
    fn reset(&mut self)
        ensures same { same_hosts self.old self.new }
        ensures after { model self.new ≡ bank_map reset_hosted_master hosts (model self.old) };

    /// Arms this master with what its host wants now. It is refused where there is no such master, then as the master
    /// refuses it, and a refusal changes nothing.
    fn arm(&mut self, master: usize) -> Result<(), Refusal>
        ensures same { same_hosts self.old self.new }
        ensures after { (answer (λ u. u) result, model self.new) ≡
            arm_master_at hosts (model self.old) master };

    /// One tick of every master; each writes its mark to its place, as far as there are places.
    fn step(&mut self, signal: Signal, marks: &mut [Mark])
        ensures after { model self.new ≡
            bank_map (λ h. hosted_step h signal) hosts (model self.old) }
        ensures marks { marks.new ≡
            marks_over (bank_list (λ h. hosted_mark h signal) hosts (model self.old)) marks.old };

    // A clock pair has counts from 1 to 255.
    ghost clocks_in_range: { (x : Self) → ClocksInRange hosts (model x) };

    // A bank that is left alone keeps its hosts.
    ghost same_hosts_refl: { (x : Self) → same_hosts x x };
}

impl Masters for End {
    ghost hosts = { [] };

    ghost model = { λ _. tt };

    ghost same_hosts = { λ _ _. Unit {0} };

    ghost same_hosts_refl = { Prim.search rules };

    ghost clocks_in_range = { Prim.search rules };

    fn pulls(&self) -> Pulls {
        Pulls::none()
    }

    fn any_armed(&self) -> bool {
        false
    }

    fn reset(&mut self) {}

    fn arm(&mut self, _master: usize) -> Result<(), Refusal> {
        Err(Refusal::NoSuchMaster)
    }

    fn step(&mut self, _signal: Signal, _marks: &mut [Mark]) {}
}

impl<H: Host, B: Masters> Masters for (Master<H>, B) {
    ghost hosts = { H.Host.behaviour ∷ B.Masters.hosts };

    ghost model = { λ p. (hosted_master H.Host p.0, B.Masters.model p.1) };

    ghost same_hosts = { λ p q. SameHost p.0 q.0 × B.Masters.same_hosts p.1 q.1 };

    ghost same_hosts_refl = { Prim.search rules };

    ghost clocks_in_range = { Prim.search rules };

    fn pulls(&self) -> Pulls {
        self.0.pulls().or(self.1.pulls())
    }

    fn any_armed(&self) -> bool {
        self.0.is_armed() || self.1.any_armed()
    }

    fn reset(&mut self) {
        self.0.reset();
        self.1.reset();
    }

    fn arm(&mut self, master: usize) -> Result<(), Refusal> {
        if master == 0 {
            self.0.arm()
        } else {
            self.1.arm(master - 1)
        }
    }

    fn step(&mut self, signal: Signal, marks: &mut [Mark]) {
        let mark = self.0.step(signal);
        match marks.split_first_mut() {
            Some((first, rest)) => {
                *first = mark;
                self.1.step(signal, rest);
            }
            None => self.1.step(signal, marks),
        }
    }
}
