// A queue of up to 8 bytes, each read once.
ghost use Rattle.std.specs.Prelude.{◌≤◌, length};
ghost use Rattle.transfer.specs.Limits.{most_items};

use crate::device::Device;
use transfer::{Direction, Fifo, Refusal};

// What an empty queue gives: all bits high, as on a bus where nobody pulls SDA.
const NO_BYTE: u8 = 0xFF;

/// Up to 8 bytes, which a master reads, the oldest first. Each read removes one. It answers no
/// select for writing, and one for reading exactly if a byte is left; one read beyond the last gets
/// 0xFF.
#[derive(Drop)]
pub struct EventQueue {
    bytes: Fifo<u8>,
    ghost few: { length bytes ≤ most_items },
}

impl EventQueue {
    ghost use Rattle.std.specs.Prelude.{◌≡◌, []};
    ghost use Rattle.transfer.specs.Fifo.{fifo_answer_to_fill};
    ghost use Rattle.transfer.specs.Refusal.{answer};
    ghost use Rattle.device.specs.EventQueue.{queue_model};

    /// An empty queue.
    pub fn new() -> EventQueue
        ensures { queue_model result ≡ [] }
    {
        EventQueue {
            bytes: Fifo::new(0),
        }
    }

    /// Starts anew with these bytes, the first the oldest. More than 8 are refused, and change
    /// nothing.
    pub fn fill(&mut self, bytes: &[u8]) -> Result<(), Refusal>
        ensures { (answer (λ u. u) result, queue_model self.new)
            ≡ fifo_answer_to_fill bytes.now (queue_model self.old) }
    {
        self.bytes.fill(bytes)
    }

    /// The bytes that are still to be read, the oldest first.
    pub fn left(&self) -> &[u8]
        ensures { result.now ≡ queue_model self.now }
    {
        self.bytes.left()
    }
}

impl Device for EventQueue {
    ghost use Rattle.device.specs.EventQueue.{queue_model, event_queue};

    ghost behaviour = { event_queue };

    ghost meaning = { queue_model };

    fn select(&mut self, direction: Direction) -> bool {
        direction == Direction::Read && self.bytes.first().is_some()
    }

    fn put(&mut self, _byte: u8) -> bool {
        false
    }

    fn take(&mut self) -> u8 {
        let oldest = self.bytes.first().unwrap_or(NO_BYTE);
        self.bytes.advance();
        oldest
    }

    fn finish(&mut self) {}

    fn hold(&mut self) -> u8 {
        0
    }
}
