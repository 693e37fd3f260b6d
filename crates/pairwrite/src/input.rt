// Where a program reads.
ghost use Rattle.std.specs.Prelude.{◌≡◌, ℕ, ◌<◌, ◌≤◌, List, length, take, IfOk, IfErr};
ghost use Rattle.std.specs.Io.KnownBytes.{Consumes, IsAtEnd, Keeps};
ghost use Rattle.std.specs.declared.io.Error.{Error as Failure};

use std::io::{self, ErrorKind, Read};

/// Where bytes are read.
// A trait beside std's `Read`, whose contracts do not say when a read fails: here a failure is named, so that a function over
// any input fails only where `next` does.
pub trait Input {
    // The input before, the bytes that it gives, and the input after.
    ghost gives: { Self → List ℕ → Self → Type 0 };

    // No byte is left.
    ghost ended: { Self → Type 0 };

    // The input before a read that fails, its error, and the input after.
    ghost fails: { Self → Failure → Self → Type 0 };

    /// Puts the next bytes to the front of `bytes`, as many as one read gives, and says how many: none only at the end of the
    /// input, or where there is no place.
    fn next(&mut self, bytes: &mut [u8]) -> io::Result<usize>
        ensures places { length bytes.new ≡ length bytes.old }
        ensures few { IfOk result (λ n. n ≤ length bytes.old) }
        ensures given { IfOk result (λ n. gives self.old (take n bytes.new) self.new) }
        ensures end { IfOk result (λ n. n ≡ 0 → 0 < length bytes.old → ended self.new) }
        ensures failed { IfErr result (λ e. fails self.old e self.new) };
}

// A read that is interrupted is tried again.
impl<R: Read> Input for R {
    ghost gives = { λ s bytes t. Consumes (R.Read.remaining s) (R.Read.remaining t) bytes };

    ghost ended = { λ s. IsAtEnd (R.Read.remaining s) };

    ghost fails = { λ s _ t. Keeps (R.Read.remaining s) (R.Read.remaining t) };

    fn next(&mut self, bytes: &mut [u8]) -> io::Result<usize> {
        for _ in 0..u64::MAX {
            match self.read(bytes) {
                Ok(count) => return Ok(count),
                Err(error) if error.kind() == ErrorKind::Interrupted => {}
                Err(error) => return Err(error),
            }
        }
        Err(ErrorKind::Interrupted.into())
    }
}
