// What one tick shows of the wire and of the masters, and its lines: its number and a mark on each.
ghost use Rattle.std.specs.Prelude.{◌≡◌, ◌+◌, ◌*◌, ◌≤◌, ◌++◌, Some, length, decimal};
ghost use Rattle.law.specs.Limits.{most_masters};
ghost use Rattle.listing.specs.Marks.{most_digits, wire_room, loser_room, stop_room, wire_line, loser_lines, stop_line};
ghost use Rattle.listing.specs.Marks.{is_mark, numbers, numbers_text, lines_of};

use law::MOST_MASTERS;
use master::Mark;
use std::fmt;
use text::{ArrayString, Decimal, digit};
use wire::Decoded;

// The most digits of a tick's number, which has 64 bits.
const DIGITS: usize = 20;

// Room for a number and the letter of a loser.
const LOSER: usize = DIGITS + 3;

// Room for the line of a byte, one for the loss of each master, and that of a stop that tells all of them.
const LINES: usize = (DIGITS + 6) + MOST_MASTERS * (LOSER + 2) + (DIGITS + 3 + 2 * MOST_MASTERS);

/// What one tick shows; it prints as its lines.
#[derive(Clone, Copy, PartialEq, Eq, Debug)]
pub struct Marks {
    /// The number of the tick, from 1 on.
    pub tick: u64,
    /// What the wire says.
    pub wire: Decoded,
    /// Who lost, and at a stop who was told, by the numbers of the masters.
    pub masters: [Mark; MOST_MASTERS],
}

impl Marks {
    ghost use Rattle.text.specs.Decimal.{IsDecimal};

    /// A start or a byte, the losers and a stop, in this order; no line where nothing is shown.
    pub fn lines(&self) -> ArrayString<LINES>
        ensures lines { result.bytes ≡ lines_of (decimal self.now.tick) self.now }
        ensures number { IsDecimal self.now.tick (decimal self.now.tick) }
    {
        let mut number = ArrayString::<DIGITS>::new();
        Decimal(self.tick).push_to(&mut number);
        let mut text = ArrayString::new();
        push_wire(&mut text, number.as_str(), self.wire);
        push_losers(&mut text, number.as_str(), &self.masters);
        push_stop(&mut text, number.as_str(), self.wire, &self.masters);
        text
    }
}

impl fmt::Display for Marks {
    ghost output = { λ m. Some (lines_of (decimal m.tick) m) };

    fn fmt<W: fmt::Write>(&self, f: &mut fmt::Formatter<W>) -> fmt::Result {
        f.write_str(self.lines().as_str())
    }
}

/// The number of each master with this mark, the lowest first, between two texts.
pub fn push_numbers<const N: usize>(
    text: &mut ArrayString<N>,
    masters: &[Mark; MOST_MASTERS],
    wanted: Mark,
    before: &str,
    after: &str,
)
    requires { length text.old.bytes +
        most_masters * (length before.now + 1 + length after.now) ≤ N }
    ensures text { text.new.bytes ≡ text.old.bytes ++
        numbers_text before.now after.now (numbers (is_mark wanted) 0 masters.now) }
    ensures short { length text.new.bytes ≤ length text.old.bytes +
        most_masters * (length before.now + 1 + length after.now) }
{
    for (number, mark) in masters.iter().enumerate() {
        if *mark == wanted {
            text.push_str(before);
            text.push(digit(number as u8));
            text.push_str(after);
        }
    }
}

// The line of a start or of a byte; a stop has its own at the end.
fn push_wire<const N: usize>(text: &mut ArrayString<N>, number: &str, wire: Decoded)
    requires { length text.old.bytes + length number.now + wire_room ≤ N }
    ensures text { text.new.bytes ≡ text.old.bytes ++ wire_line number.now wire }
    ensures short { length text.new.bytes ≤ length text.old.bytes + length number.now + wire_room }
{
    match wire {
        Decoded::Start => {
            text.push_str(number);
            text.push_str(" S\n");
        }
        Decoded::Byte(byte) => {
            text.push_str(number);
            text.push_str(" ");
            byte.push_to(text);
            text.push_str("\n");
        }
        Decoded::Nothing | Decoded::Stop => {}
    }
}

// A line for each master that lost.
fn push_losers<const N: usize>(
    text: &mut ArrayString<N>,
    number: &str,
    masters: &[Mark; MOST_MASTERS],
)
    requires digits { length number.now ≤ most_digits }
    requires room { length text.old.bytes + most_masters * (length number.now + loser_room) ≤ N }
    ensures text { text.new.bytes ≡ text.old.bytes ++ loser_lines number.now masters.now }
    ensures short { length text.new.bytes ≤ length text.old.bytes +
        most_masters * (length number.now + loser_room) }
{
    let mut before = ArrayString::<LOSER>::new();
    before.push_str(number);
    before.push_str(" L ");
    push_numbers(text, masters, Mark::Lost, before.as_str(), "\n");
}

// The line of a stop, with the masters told.
fn push_stop<const N: usize>(
    text: &mut ArrayString<N>,
    number: &str,
    wire: Decoded,
    masters: &[Mark; MOST_MASTERS],
)
    requires { length text.old.bytes + length number.now + stop_room ≤ N }
    ensures { text.new.bytes ≡ text.old.bytes ++ stop_line number.now wire masters.now }
{
    if wire == Decoded::Stop {
        text.push_str(number);
        text.push_str(" P");
        push_numbers(text, masters, Mark::Told, " ", "");
        text.push_str("\n");
    }
}

#[cfg(test)]
mod tests {
    use super::Marks;
    use master::Mark;
    use wire::{Acknowledge, Decoded, DecodedByte};

    // No contract says that printing succeeds.
    #[test]
    fn marks_print_the_lines_of_their_tick(rt: HostRuntime) {
        let mut masters = [Mark::Quiet; 8];
        masters[1] = Mark::Lost;
        masters[7] = Mark::Lost;
        let byte = DecodedByte {
            value: 0x3A,
            acknowledge: Acknowledge::N,
        };
        let marks = Marks {
            tick: 127,
            wire: Decoded::Byte(byte),
            masters,
        };
        let text = format!(in rt.alloc(); "{marks}");
        assert_eq!(rt;
            text.expect(&rt, "memory").as_str(),
            "127 3A N\n127 L 1\n127 L 7\n"
        );
        let marks = Marks {
            tick: 143,
            wire: Decoded::Stop,
            masters: [Mark::Told; 8],
        };
        let text = marks.to_string(rt.alloc());
        assert_eq!(rt;
            text.expect(&rt, "memory").as_str(),
            "143 P 0 1 2 3 4 5 6 7\n"
        );
    }
}
