// Runs the bus until nobody wants anything any more, and prints what each tick shows and what came of it.
ghost use Rattle.std.specs.Prelude.{◌≡◌, ℕ, ◌+◌, ◌≤◌, ◌++◌, Option, length};
ghost use Rattle.std.specs.Option.{option_map};
ghost use Rattle.exchange.specs.Bus.{bus_model};
ghost use Rattle.transfer.specs.Outcome.{outcome_model};
ghost use Rattle.head.specs.Run.{told_line, registers_line, end_text, PrintsHead};

use crate::setup::{HeadBus, head_bus};
use exchange::End;
use std::io;
use support::{Output, print_run, ticks_of_turns};
use text::{ArrayString, Decimal, push_bytes};
use transfer::Outcome;

const MASTERS: usize = 3;

// Room for the line of a master: the longest outcome, 32 bytes read, and a number of 64 bits.
const TOLD_ROOM: usize = 130;

// Room for the line of the 16 registers.
const REGISTERS_ROOM: usize = 59;

// Room for the lines of three masters and for that of the registers.
const END_ROOM: usize = 3 * TOLD_ROOM + REGISTERS_ROOM;

// What a master was told last, if it was told anything.
fn push_told<const N: usize>(text: &mut ArrayString<N>, number: u64, last: Option<Outcome>)
    requires { length text.old.bytes + TOLD_ROOM ≤ N }
    ensures line { text.new.bytes ≡
        text.old.bytes ++ told_line number (option_map outcome_model last) }
    ensures short { length text.new.bytes ≤ length text.old.bytes + TOLD_ROOM }
{
    if let Some(outcome) = last {
        text.push_str("master ");
        Decimal(number).push_to(text);
        text.push_str(": ");
        outcome.push_to(text);
        text.push_str("\n");
    }
}

fn push_registers<const N: usize>(text: &mut ArrayString<N>, registers: &[u8; 16])
    requires { length text.old.bytes + REGISTERS_ROOM ≤ N }
    ensures line { text.new.bytes ≡ text.old.bytes ++ registers_line registers.now }
    ensures short { length text.new.bytes ≤ length text.old.bytes + REGISTERS_ROOM }
{
    text.push_str("registers:");
    push_bytes(text, registers);
    text.push_str("\n");
}

// Takes the head apart: the last outcomes, and then the registers.
fn end_lines(bus: HeadBus) -> ArrayString<END_ROOM>
    ensures { result.bytes ≡ end_text (bus_model bus) }
{
    let ((logger, (alarm_unit, (service_port, End))), (registers, _queues)) = bus.close();
    let mut text = ArrayString::new();
    push_told(&mut text, 0, logger.into_host().last());
    push_told(&mut text, 1, alarm_unit.into_host().last());
    push_told(&mut text, 2, service_port.into_host().last());
    push_registers(&mut text, &registers.into_device().into_device().bytes());
    text
}

/// Runs the head until it is at rest, and prints the listing, the last outcome of each master and the registers.
// 16 turns are far more than the lists and the polls of this head take.
pub fn run<O: Output>(out: &mut O) -> io::Result<()>
    ensures { PrintsHead O.Output.takes O.Output.fails out.old result out.new }
{
    let mut bus = head_bus();
    let ended = print_run(out, &mut bus, MASTERS, ticks_of_turns(16));
    let end = end_lines(bus);
    if let Err(error) = ended {
        return Err(error);
    }
    out.put(end.as_str().as_bytes())
}
