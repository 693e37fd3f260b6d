// What a wire says in bytes: its bits in nines, from the last start on.
use crate::byte_progress::ByteProgress;
use crate::event::Event;
use crate::latch::Latch;
use std::fmt;
use text::{ArrayString, push_hex};

/// The ninth bit of a byte (I2C specification 2.1, section 7.2).
#[derive(Clone, Copy, PartialEq, Eq, Debug)]
pub enum Acknowledge {
    /// SDA is low: acknowledged.
    A,
    /// SDA is high: not acknowledged.
    N,
}

impl From<bool> for Acknowledge {
    ghost use Rattle.std.specs.Prelude.{◌≡◌};
    ghost use Rattle.wire.specs.Decoder.{acknowledge_of};

    ghost from_gives = { λ bit r. r ≡ acknowledge_of bit };

    fn from(bit: bool) -> Acknowledge {
        if bit { Acknowledge::N } else { Acknowledge::A }
    }
}

impl Acknowledge {
    ghost use Rattle.std.specs.Prelude.{◌≡◌};
    ghost use Rattle.wire.specs.Decoder.{letter_of};

    /// The letter that listings of a bus have for it.
    pub fn letter(self) -> &'static str
        ensures { result.now ≡ letter_of self }
    {
        match self {
            Acknowledge::A => "A",
            Acknowledge::N => "N",
        }
    }
}

impl fmt::Display for Acknowledge {
    ghost use Rattle.std.specs.Prelude.{Some};
    ghost use Rattle.wire.specs.Decoder.{letter_of};

    ghost output = { λ a. Some (letter_of a) };

    fn fmt<W: fmt::Write>(&self, f: &mut fmt::Formatter<W>) -> fmt::Result {
        f.pad(self.letter())
    }
}

/// A byte, its first bit the highest, and its acknowledge.
#[derive(Clone, Copy, PartialEq, Eq, Debug)]
pub struct DecodedByte {
    pub value: u8,
    pub acknowledge: Acknowledge,
}

impl DecodedByte {
    ghost use Rattle.std.specs.Prelude.{◌≡◌, ◌+◌, ◌≤◌, ◌++◌, length};
    ghost use Rattle.wire.specs.Decoder.{byte_text};

    /// Puts four characters at the end of the text: the byte in base sixteen, a space, and the
    /// letter of its acknowledge.
    pub fn push_to<const N: usize>(self, text: &mut ArrayString<N>)
        requires { length text.old.bytes + 4 ≤ N }
        ensures { text.new.bytes ≡ text.old.bytes ++ byte_text self }
    {
        push_hex(text, self.value);
        text.push_str(" ");
        text.push_str(self.acknowledge.letter());
    }
}

impl fmt::Display for DecodedByte {
    ghost use Rattle.std.specs.Prelude.{Some};
    ghost use Rattle.wire.specs.Decoder.{byte_text};

    ghost output = { λ b. Some (byte_text b) };

    fn fmt<W: fmt::Write>(&self, f: &mut fmt::Formatter<W>) -> fmt::Result {
        let mut text = ArrayString::<4>::new();
        self.push_to(&mut text);
        f.pad(text.as_str())
    }
}

/// What an event says. A byte is said at the fall at which its ninth bit counts.
#[derive(Clone, Copy, PartialEq, Eq, Debug)]
pub enum Decoded {
    Nothing,
    Start,
    Byte(DecodedByte),
    Stop,
}

/// Reads the bytes of a wire from its events. A byte that a start or a stop cuts short is dropped.
#[derive(Clone, Copy, PartialEq, Eq, Debug)]
pub struct Decoder {
    latch: Latch,
    byte: ByteProgress,
}

impl Decoder {
    ghost use Rattle.std.specs.Prelude.{◌≡◌};
    ghost use Rattle.wire.specs.Decoder.{new_decoder, take_bit, decoder_step};

    /// Before the first event.
    pub fn new() -> Decoder
        ensures { result ≡ new_decoder }
    {
        Decoder {
            latch: Latch::new(),
            byte: ByteProgress::of(0),
        }
    }

    // What a bit that counts says, and the byte after it: the ninth acknowledges the eight before
    // it.
    fn take_bit(byte: ByteProgress, bit: bool) -> (Decoded, ByteProgress)
        ensures { result ≡ take_bit byte bit }
    {
        if byte.bits < 8 {
            return (Decoded::Nothing, byte.received(bit));
        }
        let decoded = DecodedByte {
            value: byte.value,
            acknowledge: bit.into(),
        };
        (Decoded::Byte(decoded), ByteProgress::of(0))
    }

    /// Takes the next event.
    pub fn step(&mut self, event: Event) -> Decoded
        ensures { (result, self.new) ≡ decoder_step self.old event }
    {
        let bit = self.latch.step(event);
        let (decoded, byte) = match (event, bit) {
            (Event::Start, _) => (Decoded::Start, ByteProgress::of(0)),
            (Event::Stop, _) => (Decoded::Stop, ByteProgress::of(0)),
            (Event::Fall, Some(bit)) => Decoder::take_bit(self.byte, bit),
            _ => (Decoded::Nothing, self.byte),
        };
        self.byte = byte;
        decoded
    }
}
