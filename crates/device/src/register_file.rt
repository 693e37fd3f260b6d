// A file of 16 registers behind a pointer.
ghost use Rattle.std.specs.Prelude.{◌<◌};
ghost use Rattle.device.specs.Limits.{register_count};

use crate::device::Device;
use transfer::Direction;

const REGISTERS: usize = 16;

/// 16 registers of a byte each. The first byte of a write is a pointer, and the others are stored
/// from it on; a read begins at the pointer. It goes up by one with each byte, from the last
/// register to the first.
#[derive(Drop, Debug)]
pub struct RegisterFile {
    bytes: [u8; REGISTERS],
    pointer: u8,
    awaits_pointer: bool,
    ghost within: { pointer < register_count },
}

impl RegisterFile {
    ghost use Rattle.std.specs.Prelude.{◌≡◌};
    ghost use Rattle.device.specs.RegisterFile.{register_file_model, new_registers};

    /// All registers are 0, and so is the pointer.
    pub fn new() -> RegisterFile
        ensures { register_file_model result ≡ new_registers }
    {
        RegisterFile {
            bytes: [0; REGISTERS],
            pointer: 0,
            awaits_pointer: false,
        }
    }

    /// The registers, from register 0 on.
    pub fn bytes(&self) -> [u8; REGISTERS]
        ensures { result ≡ (register_file_model self.now).bytes }
    {
        self.bytes
    }

    /// The register, from 0 to 15, that the next byte is taken from, or stored in once a write has
    /// set the pointer.
    pub fn pointer(&self) -> u8
        ensures { result ≡ (register_file_model self.now).pointer }
    {
        self.pointer
    }
}

impl Device for RegisterFile {
    ghost use Rattle.device.specs.RegisterFile.{register_file_model, register_file};

    ghost behaviour = { register_file };

    ghost meaning = { register_file_model };

    fn select(&mut self, direction: Direction) -> bool {
        if direction == Direction::Write {
            self.awaits_pointer = true;
        }
        true
    }

    fn put(&mut self, byte: u8) -> bool {
        if self.awaits_pointer {
            if byte >= REGISTERS as u8 {
                return false;
            }
            self.pointer = byte;
            self.awaits_pointer = false;
        } else {
            self.bytes[self.pointer as usize] = byte;
            self.pointer = (self.pointer + 1) % REGISTERS as u8;
        }
        true
    }

    fn take(&mut self) -> u8 {
        let byte = self.bytes[self.pointer as usize];
        self.pointer = (self.pointer + 1) % REGISTERS as u8;
        byte
    }

    fn finish(&mut self) {}

    fn hold(&mut self) -> u8 {
        0
    }
}
