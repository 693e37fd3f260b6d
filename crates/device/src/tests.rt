// Layers on examples, each driven by hand.
ghost use Rattle.std.specs.Prelude.{◌≤◌, length};
ghost use Rattle.transfer.specs.Limits.{most_items};
ghost use Rattle.device.specs.EventQueue.{queue_model};

use crate::busy::Busy;
use crate::device::Device;
use crate::event_queue::EventQueue;
use crate::register_file::RegisterFile;
use crate::slow::Slow;
use transfer::Direction;

// One write as the bus would make it, however many masters sent it.
fn write_once(device: &mut Busy<RegisterFile>) -> bool {
    let selected = device.select(Direction::Write);
    let pointed = device.put(0x03);
    let stored = device.put(0x7F);
    device.finish();
    selected && pointed && stored
}

#[test]
fn a_write_makes_busy_for_one_select(rt: HostRuntime) {
    let mut device = Busy::new(1, RegisterFile::new());
    assert!(rt; write_once(&mut device));
    assert_eq!(rt; device.left(), 1);
    assert_eq!(rt; device.device().bytes()[3], 0x7F);
    assert_eq!(rt; device.device().pointer(), 4);
    assert!(rt; !device.select(Direction::Write));
    assert_eq!(rt; device.left(), 0);
    assert!(rt; device.select(Direction::Write));
}

#[test]
fn a_put_outside_a_selection_does_not_make_busy(rt: HostRuntime) {
    let mut device = Busy::new(1, RegisterFile::new());
    assert!(rt; device.put(0x03));
    device.finish();
    assert!(rt; device.select(Direction::Write));
}

#[test]
fn a_pile_holds_as_long_as_its_slowest_layer(rt: HostRuntime) {
    let mut quick_over_slow = Slow::new(3, Slow::new(7, RegisterFile::new()));
    let mut slow_over_quick = Slow::new(7, Slow::new(3, RegisterFile::new()));
    assert_eq!(rt; quick_over_slow.hold(), 7);
    assert_eq!(rt; slow_over_quick.hold(), 7);
}

// A caller knows of any queue that it is short.
fn bytes_left(queue: &EventQueue) -> usize
    ensures few { length (queue_model queue.now) ≤ most_items }
    ensures left { result ≤ most_items }
{
    queue.left().len()
}

#[test]
fn a_queue_is_short(rt: HostRuntime) {
    let mut queue = EventQueue::new();
    assert!(rt; queue.fill(&[0x3C, 0x5A]).is_ok());
    assert_eq!(rt; queue.take(), 0x3C);
    assert_eq!(rt; bytes_left(&queue), 1);
}
