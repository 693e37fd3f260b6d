// Reads a byte for each of two masters, and prints the listing of their bus until it is at rest.
ghost use Rattle.std.specs.Prelude.{◌≡◌, ℕ, List, IfOk, IfErr};
ghost use Rattle.pairwrite.specs.Input.{Reads, FailsToRead, first_two};
ghost use Rattle.pairwrite.specs.Run.{PrintsInput};

use crate::input::Input;
use crate::setup::bus_of;
use std::io;
use support::{Output, print_run, ticks_of_turns};

const MASTERS: usize = 2;

// The first two bytes of the input, if it has as many. One read may give both: what a read of a datagram leaves is lost.
fn two_bytes<I: Input>(input: &mut I) -> io::Result<Option<[u8; 2]>>
    ensures read { IfOk result (λ bytes. (xs : List ℕ) ×
        Reads I.Input.gives I.Input.ended input.old xs input.new × (bytes ≡ first_two xs)) }
    ensures failed { IfErr result (FailsToRead I.Input.gives I.Input.fails input.old input.new) }
{
    let mut bytes = [0; 2];
    let count = input.next(&mut bytes)?;
    if count == 0 {
        return Ok(None);
    }
    if count == 2 {
        return Ok(Some(bytes));
    }
    let last = input.next(&mut bytes[1..])?;
    if last == 0 {
        return Ok(None);
    }
    Ok(Some(bytes))
}

/// Reads two bytes, lets each of two masters write one of them to the same register, and prints the listing until both
/// have been told. Fewer bytes print nothing; further ones are not looked at.
pub fn run<I: Input, O: Output>(input: &mut I, out: &mut O) -> io::Result<()>
    ensures { PrintsInput I.Input.gives I.Input.ended I.Input.fails O.Output.takes O.Output.fails
        input.old input.new out.old result out.new }
{
    let Some(bytes) = two_bytes(input)? else {
        return Ok(());
    };
    let mut bus = bus_of(bytes[0], bytes[1]);
    print_run(out, &mut bus, MASTERS, ticks_of_turns(2))
}

#[cfg(test)]
mod tests {
    use super::run;
    use std::io::{self, ErrorKind, Read};

    // A read takes what was sent last, and what it has no place for is lost.
    #[derive(Drop)]
    struct Datagram {
        bytes: [u8; 2],
        is_sent: bool,
    }

    impl Read for Datagram {
        fn read(&mut self, buf: &mut [u8]) -> io::Result<usize> {
            if self.is_sent {
                return Err(ErrorKind::WouldBlock.into());
            }
            self.is_sent = true;
            let count = buf.len().min(2);
            buf[..count].copy_from_slice(&self.bytes[..count]);
            Ok(count)
        }
    }

    // No contract says in how many reads the bytes are taken.
    #[test]
    fn takes_two_bytes_of_one_datagram(rt: HostRuntime) {
        let mut held = Vec::new(rt.alloc());
        let mut datagram = Datagram {
            bytes: [0x12, 0x10],
            is_sent: false,
        };
        assert!(rt; run(&mut datagram, &mut held).is_ok());
        assert!(rt; held.starts_with(b"2 S\n49 A0 A\n94 03 A\n127 L 0\n"));
    }

    // No contract says that a read and a write of std succeed.
    #[test]
    fn prints_of_two_bytes_and_nothing_of_one(rt: HostRuntime) {
        let mut held = Vec::new(rt.alloc());
        let mut one = &b"\x12"[..];
        assert!(rt; run(&mut one, &mut held).is_ok());
        assert!(rt; held.is_empty());
        let mut more = &b"\x12\x10\x00"[..];
        assert!(rt; run(&mut more, &mut held).is_ok());
        assert!(rt; held.starts_with(b"2 S\n49 A0 A\n94 03 A\n127 L 0\n"));
        assert_eq!(rt; more.len(), 1);
    }
}
