// What a contender shows between a fall and the next.
ghost use Rattle.std.specs.Prelude.{◌≡◌};
ghost use Rattle.master.specs.Symbol.{bit_symbol};

/// What a contender shows on SDA while the clock goes low and high once.
#[derive(Clone, Copy, PartialEq, Eq, Debug)]
pub enum Symbol {
    /// SDA is pulled.
    Zero,
    /// SDA is let go; heard as 0, it is lost (I2C specification 2.1, section 8.2).
    One,
    /// SDA is let go for another's bit: of a byte that is read, or the acknowledge of one that is written.
    Listen,
    /// SDA is let go, and pulled once the clock is high (section 6.2).
    RepeatedStart,
    /// SDA is pulled, and let go once the clock is high (section 6.2).
    Stop,
}

impl From<bool> for Symbol {
    ghost from_gives = { λ bit symbol. symbol ≡ bit_symbol bit };

    fn from(bit: bool) -> Symbol {
        if bit { Symbol::One } else { Symbol::Zero }
    }
}

impl Symbol {
    ghost use Rattle.master.specs.Symbol.{pulls_sda};

    // Whether SDA is pulled for it from the fall on.
    pub(crate) fn pulls_sda(self) -> bool
        ensures { result ≡ pulls_sda self }
    {
        match self {
            Symbol::Zero | Symbol::Stop => true,
            Symbol::One | Symbol::Listen | Symbol::RepeatedStart => false,
        }
    }
}
