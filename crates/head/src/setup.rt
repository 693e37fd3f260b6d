// The bus of the sensor head: a logger, an alarm unit and a service port, and the three devices that they share.
ghost use Rattle.std.specs.Prelude.{◌≡◌};
ghost use Rattle.device.specs.EventQueue.{event_queue, queue_model};
ghost use Rattle.device.specs.Slow.{slow_model};
ghost use Rattle.exchange.specs.Bus.{bus_model};
ghost use Rattle.master.specs.Master.{hosted_master};
ghost use Rattle.support.specs.Sent.{event_read};
ghost use Rattle.head.specs.Setup.{log_write, log_read, service_write, probe_write, slow_queue, ListsAt, PollsAt, IsHead};

use device::{Busy, EventQueue, RegisterFile, Slow};
use exchange::{Bus, End};
use host::{Host, ListHost, PollHost};
use master::Master;
use port::Port;
use support::{list_of, queue_of};
use transfer::{Address, ClockPair, Transfer};

/// The logger, the alarm unit and the service port.
pub type HeadMasters = (
    Master<ListHost>,
    (Master<PollHost>, (Master<ListHost>, End)),
);

/// The registers, the slow queue and the quick one.
pub type HeadPorts = (
    Port<Busy<RegisterFile>>,
    (Port<Slow<EventQueue>>, (Port<EventQueue>, End)),
);

/// The bus of the sensor head.
pub type HeadBus = Bus<HeadMasters, HeadPorts>;

const REGISTERS: u32 = 0x50;

// Two queues have this address, and the lines join what they show.
const EVENTS: u32 = 0x51;

// No port has this address.
const NOBODY: u32 = 0x22;

// It writes two registers, and then reads them back. What each master sends is the point, so each has a function.
fn logger() -> Master<ListHost>
    ensures { ListsAt 2 2 log_write log_read (hosted_master ⟦<ListHost as Host>⟧ result) }
{
    let clock = ClockPair::new(2, 2).unwrap();
    let registers = Address::new(REGISTERS).unwrap();
    let write = Transfer::write(registers, &[0x03, 0x7F, 0x80]).unwrap();
    let read = Transfer::write_then_read(registers, &[0x03], 2).unwrap();
    Master::new(clock, list_of(&[write, read]).unwrap())
}

// It polls until an event has its highest bit set.
fn alarm_unit() -> Master<PollHost>
    ensures { PollsAt 1 3 event_read (hosted_master ⟦<PollHost as Host>⟧ result) }
{
    let clock = ClockPair::new(1, 3).unwrap();
    let read = Transfer::read(Address::new(EVENTS).unwrap(), 1).unwrap();
    Master::new(clock, PollHost::new(read, 0x80))
}

// It writes one of the same registers, and then looks whether somebody else answers.
fn service_port() -> Master<ListHost>
    ensures { ListsAt 3 1 service_write probe_write (hosted_master ⟦<ListHost as Host>⟧ result) }
{
    let clock = ClockPair::new(3, 1).unwrap();
    let write = Transfer::write(Address::new(REGISTERS).unwrap(), &[0x03, 0x7F]).unwrap();
    let probe = Transfer::write(Address::new(NOBODY).unwrap(), &[]).unwrap();
    Master::new(clock, list_of(&[write, probe]).unwrap())
}

// It holds the clock for 5 ticks.
fn slow_events() -> Slow<EventQueue>
    ensures { slow_model event_queue queue_model result ≡ slow_queue }
{
    Slow::new(5, queue_of(&[0x91, 0x85]).unwrap())
}

/// Each master at its clock with what its host wants, each device as it is made.
pub fn head_bus() -> HeadBus
    ensures { IsHead (bus_model result) }
{
    let masters = (logger(), (alarm_unit(), (service_port(), End)));
    let registers = Address::new(REGISTERS).unwrap();
    let events = Address::new(EVENTS).unwrap();
    let slow = slow_events();
    let quick = queue_of(&[0x31]).unwrap();
    let ports = (
        Port::new(registers, Busy::new(1, RegisterFile::new())),
        (Port::new(events, slow), (Port::new(events, quick), End)),
    );
    Bus::new(masters, ports)
}
