// No contract says that printing succeeds, nor what a caller finds out by itself.
ghost use Rattle.std.specs.Prelude.{◌≤◌};
ghost use Rattle.transfer.specs.Limits.{most_items};

use crate::{BytePlace, Fifo, LegPlace, Outcome, OutcomeKind, ReadBytes, Refusal, WriteBytes};

// A caller knows of any list that it is short.
fn items_left(list: &Fifo<u8>) -> usize
    ensures { result ≤ most_items }
{
    list.left().len()
}

#[test]
fn a_list_is_short(rt: HostRuntime) {
    let mut list = Fifo::new(0);
    assert!(rt; list.fill(&[1, 2, 3]).is_ok());
    list.advance();
    assert_eq!(rt; items_left(&list), 2);
}

// No proof is asked for where the bytes are spelled out.
fn spelled_out(byte: u8) -> (ReadBytes, WriteBytes) {
    let read = ReadBytes {
        bytes: [byte; 32],
        len: 3,
    };
    let write = WriteBytes {
        bytes: [byte; 16],
        len: 16,
    };
    (read, write)
}

#[test]
fn bytes_are_made_of_an_array(rt: HostRuntime) {
    let (read, write) = spelled_out(0xA5);
    assert_eq!(rt; read.as_slice().len(), 3);
    assert_eq!(rt; write.last_or_zero(), 0xA5);
}

#[test]
fn a_cast_of_a_refusal_is_its_place(rt: HostRuntime) {
    assert_eq!(rt; Refusal::AddressOutOfRange as u8, 0);
    assert_eq!(rt; Refusal::TooManyTicks as u8, 7);
}

#[test]
fn an_outcome_prints_what_came_of_a_transfer(rt: HostRuntime) {
    let mut read = ReadBytes::new();
    let done = OutcomeKind::Done;
    read.push(0x07);
    read.push(0xA5);
    let text = format!(in rt.alloc(); "{}", Outcome { kind: done, read });
    assert_eq!(rt; text.expect(&rt, "memory").as_str(), "done 07 A5");
    let kind = OutcomeKind::NoAnswer(LegPlace { leg: 1 });
    let text = format!(in rt.alloc(); "{}", Outcome { kind, read });
    assert_eq!(rt; text.expect(&rt, "memory").as_str(), "no answer to leg 1");
    let kind = OutcomeKind::Refused(BytePlace { leg: 0, byte: 12 });
    let text = format!(in rt.alloc(); "{}", Outcome { kind, read });
    assert_eq!(rt;
        text.expect(&rt, "memory").as_str(),
        "byte 12 of leg 0 refused"
    );
}

#[test]
fn a_refusal_prints_its_message(rt: HostRuntime) {
    let text = Refusal::AddressOutOfRange.to_string(rt.alloc());
    assert_eq!(rt;
        text.expect(&rt, "memory").as_str(),
        "address not from 8 to 119"
    );
    let text = format!(in rt.alloc(); "refused: {}", Refusal::TwoLegsAlready);
    assert_eq!(rt;
        text.expect(&rt, "memory").as_str(),
        "refused: a transfer has two legs at most"
    );
}

#[test]
fn bytes_print_those_that_they_hold(rt: HostRuntime) {
    let mut bytes = WriteBytes::new();
    bytes.push(7);
    bytes.push(165);
    let text = format!(in rt.alloc(); "{:?}", bytes);
    assert_eq!(rt; text.expect(&rt, "memory").as_str(), "[7, 165]");
}
