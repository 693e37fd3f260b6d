// The device and the host, driven by hand.
use crate::counter::Counter;
use crate::once::Once;
use device::Device;
use host::Host;
use transfer::{Address, Direction, Outcome, OutcomeKind, ReadBytes, Transfer};

#[test]
fn a_counter_gives_how_many_bytes_were_taken(rt: HostRuntime) {
    let mut counter = Counter::new();
    assert!(rt; counter.select(Direction::Read));
    assert_eq!(rt; counter.take(), 0);
    assert_eq!(rt; counter.take(), 1);
    assert_eq!(rt; counter.count(), 2);
    assert_eq!(rt; counter.hold(), 2);
    counter.finish();
    assert!(rt; !counter.select(Direction::Write));
}

#[test]
fn a_once_host_wants_until_it_is_told(rt: HostRuntime) {
    let address = Address::new(0x50).unwrap();
    let mut host = Once::new(Transfer::write(address, &[0x03]).unwrap());
    assert!(rt; host.want().0);
    assert!(rt; host.last().is_none());
    host.told(&Outcome {
        kind: OutcomeKind::Done,
        read: ReadBytes::new(),
    });
    assert!(rt; !host.want().0);
    assert!(rt; host.last().is_some());
}
