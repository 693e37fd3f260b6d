// What a tick says of each master.

/// What a tick made of a master, as it shows beside the levels and the event.
#[derive(Clone, Copy, PartialEq, Eq, Debug)]
pub enum Mark {
    /// Neither of the two below.
    Quiet,
    /// Its host was told an outcome: its stop was seen, and its turn is over.
    Told,
    /// It lost the arbitration (I2C specification 2.1, section 8.2). It stays armed, and contends again when the bus is free.
    Lost,
}
