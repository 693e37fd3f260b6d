// The state of a listing: how many ticks it has seen, and the bytes of the wire.
use crate::marks::Marks;
use law::Tick;
use wire::Decoder;

/// What a listing keeps from tick to tick.
#[derive(Clone, Copy, PartialEq, Eq, Debug)]
pub struct Listing {
    ticks: u64,
    decoder: Decoder,
}

impl Listing {
    ghost use Rattle.std.specs.Prelude.{◌≡◌};
    ghost use Rattle.listing.specs.Listing.{new_listing, listing_step};

    /// Before the first tick, which is number 1.
    pub fn new() -> Listing
        ensures { result ≡ new_listing }
    {
        Listing {
            ticks: 0,
            decoder: Decoder::new(),
        }
    }

    /// The marks of the next tick. The count stays at the highest number rather than wrap.
    pub fn step(&mut self, tick: &Tick) -> Marks
        ensures { (result, self.new) ≡ listing_step self.old tick.now }
    {
        self.ticks = self.ticks.saturating_add(1);
        Marks {
            tick: self.ticks,
            wire: self.decoder.step(tick.event),
            masters: tick.marks,
        }
    }
}
