// No contract says that printing succeeds.
use crate::{Acknowledge, DecodedByte};

#[test]
fn a_byte_prints_with_its_acknowledge(rt: HostRuntime) {
    let byte = DecodedByte {
        value: 0x0F,
        acknowledge: Acknowledge::N,
    };
    let text = format!(in rt.alloc(); "{byte}, {}", Acknowledge::A);
    assert_eq!(rt; text.expect(&rt, "memory").as_str(), "0F N, A");
}
