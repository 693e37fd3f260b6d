// Where a program prints.
ghost use Rattle.std.specs.Prelude.{ℕ, List, OnOk, IfErr};
ghost use Rattle.std.specs.declared.io.Error.{Error as Failure};
ghost use Rattle.std.specs.Io.KnownBytes.{Appends};
ghost use Rattle.support.specs.Output.{AppendsFront};

use std::io::{self, ErrorKind, Write};

/// Where bytes are put, one text after the other.
// A trait beside std's `Write`, whose contracts do not say when a write fails: under them a program that only fails would
// be proved. Here a failure is named, so that a function over any output fails only where `put` does.
pub trait Output {
    // The output before a write that succeeds, the bytes, and the output after it.
    ghost takes: { Self → List ℕ → Self → Type 0 };

    // The same of a write that fails, with its error.
    ghost fails: { Self → List ℕ → Failure → Self → Type 0 };

    /// Writes all of the bytes, or fails with the error of the first write that does.
    fn put(&mut self, bytes: &[u8]) -> io::Result<()>
        ensures taken { OnOk result (takes self.old bytes.now self.new) }
        ensures failed { IfErr result (λ e. fails self.old bytes.now e self.new) };
}

// After a write that fails the writer holds a first part of the bytes. By hand: std's `write_all` says nothing of it. A
// write that is interrupted is tried again.
impl<W: Write> Output for W {
    ghost takes = { λ s bytes t. Appends (W.Write.contents s) (W.Write.contents t) bytes };

    ghost fails = { λ s bytes _ t. AppendsFront (W.Write.contents s) (W.Write.contents t) bytes };

    fn put(&mut self, bytes: &[u8]) -> io::Result<()> {
        let mut rest = bytes;
        for _ in 0..u64::MAX {
            if rest.is_empty() {
                return Ok(());
            }
            match self.write(rest) {
                Ok(0) => return Err(ErrorKind::WriteZero.into()),
                Ok(written) => rest = &rest[written..],
                Err(error) if error.kind() == ErrorKind::Interrupted => {}
                Err(error) => return Err(error),
            }
        }
        Err(ErrorKind::Interrupted.into())
    }
}

#[cfg(test)]
mod tests {
    use super::Output;

    // No contract says that a write of std succeeds.
    #[test]
    fn puts_one_text_after_the_other(rt: HostRuntime) {
        let mut held = Vec::new(rt.alloc());
        assert!(rt; held.put(b"2 S\n").is_ok());
        assert!(rt; held.put(b"9 P\n").is_ok());
        assert!(rt; held.starts_with(b"2 S\n9 P\n"));
        assert_eq!(rt; held.len(), 8);
    }
}
