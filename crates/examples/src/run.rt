// Ticks each example to its first stop, and prints who was told there.
ghost use Rattle.std.specs.Prelude.{◌≡◌, ℕ, ◌+◌, ◌≤◌, ◌++◌, List, length};
ghost use Rattle.std.specs.List.{flat_map};
ghost use Rattle.exchange.specs.Bus.{bus_model};
ghost use Rattle.support.specs.Output.{Puts};
ghost use Rattle.examples.specs.Run.{first_stop, told_at, clocks_text, example_line, Examples, Joined};

use crate::setup::{all_clocks, queue_bus};
use exchange::{End, Event, Mark, Tick};
use host::ListHost;
use law::restart_over_one;
use listing::push_numbers;
use std::io;
use support::{Clocks, Output, PairBus, arm_all, list_of, pair_bus, ticks_of_turns};
use text::{ArrayString, Decimal};
use transfer::{Address, Transfer};

const REGISTERS: u32 = 0x50;

const EXAMPLES: usize = 6;

// Each under so many choices of clocks.
const CHOICES: usize = 4;

// Room for the name of an example, for the counts of two clocks, and for the numbers of all masters.
const NAME: usize = 20;

const CLOCKS: usize = 87;

const TOLD: usize = 16;

// Room for a line of an example: these, and ", clocks ", ": told" and its end.
const LINE: usize = NAME + 9 + CLOCKS + 6 + TOLD + 1;

// Room for the lines of an example.
const EXAMPLE: usize = CHOICES * LINE;

// Room for the line of the two queues, with the longest outcome.
const JOINED: usize = 116;

const ALL: usize = EXAMPLES * EXAMPLE + JOINED;

// The first stop once both masters are armed.
fn first_stop(bus: &mut PairBus<ListHost>) -> Option<Tick>
    ensures { result ≡ first_stop (bus_model bus.old) }
{
    arm_all(bus, 2);
    for _made in 0..ticks_of_turns(1) {
        let tick = bus.tick();
        if let Event::Stop = tick.event {
            return Some(tick);
        }
    }
    None
}

fn push_clocks<const N: usize>(text: &mut ArrayString<N>, clocks: Clocks)
    requires { length text.old.bytes + CLOCKS ≤ N }
    ensures text { text.new.bytes ≡ text.old.bytes ++ clocks_text clocks }
    ensures short { length text.new.bytes ≤ length text.old.bytes + CLOCKS }
{
    let Clocks { first, second } = clocks;
    Decimal(first.low().into()).push_to(text);
    text.push_str(" ");
    Decimal(first.high().into()).push_to(text);
    text.push_str(" and ");
    Decimal(second.low().into()).push_to(text);
    text.push_str(" ");
    Decimal(second.high().into()).push_to(text);
}

fn push_told<const N: usize>(text: &mut ArrayString<N>, stop: Option<Tick>)
    requires { length text.old.bytes + TOLD ≤ N }
    ensures text { text.new.bytes ≡ text.old.bytes ++ told_at stop }
    ensures short { length text.new.bytes ≤ length text.old.bytes + TOLD }
{
    if let Some(stop) = stop {
        push_numbers(text, &stop.marks, Mark::Told, " ", "");
    }
}

// Each has a bus of its own, so that no run sees what another left behind.
fn example_line(name: &str, one: Transfer, other: Transfer, clocks: Clocks) -> ArrayString<LINE>
    requires { length name.now ≤ NAME }
    ensures { result.bytes ≡ example_line name.now one other clocks }
{
    let address = Address::new(REGISTERS).unwrap();
    let hosts = (list_of(&[one]).unwrap(), list_of(&[other]).unwrap());
    let mut bus = pair_bus(address, clocks, hosts.0, hosts.1);
    let stop = first_stop(&mut bus);
    let mut line = ArrayString::new();
    line.push_str(name);
    line.push_str(", clocks ");
    push_clocks(&mut line, clocks);
    line.push_str(": told");
    push_told(&mut line, stop);
    line.push_str("\n");
    line
}

// One line for each choice of clocks.
fn push_example<const N: usize>(
    text: &mut ArrayString<N>,
    clocks: &[Clocks; CHOICES],
    name: &str,
    one: Transfer,
    other: Transfer,
)
    requires room { length text.old.bytes + EXAMPLE ≤ N }
    requires short_name { length name.now ≤ NAME }
    ensures text { text.new.bytes ≡
        text.old.bytes ++ flat_map (example_line name.now one other) clocks.now }
    ensures short { length text.new.bytes ≤ length text.old.bytes + EXAMPLE }
{
    for &choice in clocks {
        text.push_str(example_line(name, one, other, choice).as_str());
    }
}

// What is read of two queues at one address.
fn push_joined<const N: usize>(text: &mut ArrayString<N>)
    requires { length text.old.bytes + JOINED ≤ N }
    ensures { (joined : List ℕ) × Joined joined × (text.new.bytes ≡ text.old.bytes ++ joined) }
{
    let mut bus = queue_bus();
    arm_all(&mut bus, 1);
    let _ = bus.run(ticks_of_turns(1));
    let ((reader, End), _queues) = bus.close();
    if let Some(outcome) = reader.into_host().last() {
        text.push_str("joined queues: ");
        outcome.push_to(text);
        text.push_str("\n");
    }
}

fn lines() -> ArrayString<ALL>
    ensures { (text : List ℕ) × (joined : List ℕ) × Examples text × Joined joined ×
        (result.bytes ≡ text ++ joined) }
{
    let clocks = all_clocks();
    let registers = Address::new(REGISTERS).unwrap();
    let three = Transfer::write(registers, &[0x03]).unwrap();
    let (three_then_read, three_and_high) = restart_over_one().unwrap();
    let three_and_zero = Transfer::write(registers, &[0x03, 0x00]).unwrap();
    let register = Transfer::write(registers, &[0x03, 0x12]).unwrap();
    let three_bytes = Transfer::read(registers, 3).unwrap();
    let two_bytes = Transfer::read(registers, 2).unwrap();
    let mut text = ArrayString::new();
    push_example(&mut text, &clocks, "stop over one", three, three_and_high);
    push_example(&mut text, &clocks, "zero over stop", three_and_zero, three);
    push_example(
        &mut text,
        &clocks,
        "stop over restart",
        three,
        three_then_read,
    );
    push_example(
        &mut text,
        &clocks,
        "restart over one",
        three_then_read,
        three_and_high,
    );
    push_example(
        &mut text,
        &clocks,
        "more over fewer",
        three_bytes,
        two_bytes,
    );
    push_example(&mut text, &clocks, "equal writes", register, register);
    push_joined(&mut text);
    text
}

/// Prints a line for each example and choice of clocks, and what the two queues give.
pub fn run<O: Output>(out: &mut O) -> io::Result<()>
    ensures { (text : List ℕ) × (joined : List ℕ) × Examples text × Joined joined ×
        Puts O.Output.takes O.Output.fails (text ++ joined) out.old result out.new }
{
    out.put(lines().as_str().as_bytes())
}
