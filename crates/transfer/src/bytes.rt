// Up to N bytes in a place of fixed size: what a leg writes, or what was read.
ghost use Rattle.std.specs.Prelude.{◌≡◌, ◌≤◌, length};
ghost use Rattle.transfer.specs.Limits.{most_bytes};
ghost use Rattle.transfer.specs.Octets.{IsOctets};

use std::fmt;

/// How many bytes a leg writes or reads at most. It may write none, and reads at least one.
pub const MOST_BYTES: usize = 16;

/// How many bytes a transfer reads at most, in two legs.
pub const MOST_READ: usize = 2 * MOST_BYTES;

/// The first `len` of `bytes`. What lies behind them does not count: it is neither compared nor
/// printed.
// A buffer with its length: a sensor head has no heap, and a transfer is copied, which the kit's
// `ArrayVec` is not. It has no `Model`, since the model of a copied type gives its fields back.
// Clauses see it by `bytes_in`.
#[derive(Clone, Copy)]
pub struct Bytes<const N: usize> {
    pub bytes: [u8; N],
    pub len: usize,
    ghost fits: { len ≤ N },
    ghost room: { length bytes ≡ N },
    // of those that a leg can write: what was read owes nothing
    ghost octets: { N ≤ most_bytes → IsOctets bytes },
}

/// What a leg writes.
pub type WriteBytes = Bytes<MOST_BYTES>;

/// What a transfer read.
pub type ReadBytes = Bytes<MOST_READ>;

impl<const N: usize> Bytes<N> {
    ghost use Rattle.std.specs.Prelude.{◌+◌, ◌<◌, [], ◌∷◌, ◌++◌};
    ghost use Rattle.transfer.specs.Bytes.{bytes_in, last_byte};

    /// No byte.
    pub fn new() -> Bytes<N>
        ensures bytes { bytes_in result ≡ [] }
        ensures len { result.len ≡ 0 }
    {
        Bytes {
            bytes: [0; N],
            len: 0,
        }
    }

    pub(crate) fn copy_of(source: &[u8]) -> Bytes<N>
        requires { length source.now ≤ N }
        ensures { bytes_in result ≡ source.now }
    {
        let mut bytes = [0; N];
        bytes[..source.len()].copy_from_slice(source);
        Bytes {
            bytes,
            len: source.len(),
        }
    }

    /// Puts a byte at the end.
    pub fn push(&mut self, byte: u8)
        requires room { self.old.len < N }
        ensures bytes { bytes_in self.new ≡ bytes_in self.old ++ byte ∷ [] }
        ensures len { self.new.len ≡ self.old.len + 1 }
    {
        self.bytes[self.len] = byte;
        self.len += 1;
    }

    /// The bytes held, in order.
    pub fn as_slice(&self) -> &[u8]
        ensures { result.now ≡ bytes_in self.now }
    {
        &self.bytes[..self.len]
    }

    /// The last byte; none counts as 0.
    pub fn last_or_zero(&self) -> u8
        ensures { result ≡ last_byte (bytes_in self.now) }
    {
        self.as_slice().last().copied().unwrap_or(0)
    }
}

// By hand, since a derive would compare what lies behind the length.
impl<const N: usize> PartialEq for Bytes<N> {
    ghost use Rattle.std.specs.Bool.{Decides};
    ghost use Rattle.std.specs.Cmp.{on_equiv, partial_equiv_from_equiv};
    ghost use Rattle.std.specs.Cmp.Lexicographic.{pointwise, nat_list_eq_equiv};
    ghost use Rattle.std.specs.Prelude.{nat_eq};
    ghost use Rattle.transfer.specs.Bytes.{bytes_in};

    ghost eq = { λ a b. pointwise nat_eq (bytes_in a) (bytes_in b) };

    ghost laws = { partial_equiv_from_equiv (on_equiv bytes_in nat_list_eq_equiv) };

    fn eq(&self, other: &Bytes<N>) -> bool
        ensures value { result ≡ pointwise nat_eq (bytes_in self.now) (bytes_in other.now) }
        ensures same { Decides result (bytes_in self.now ≡ bytes_in other.now) }
    {
        self.as_slice() == other.as_slice()
    }
}

impl<const N: usize> Eq for Bytes<N> {
    ghost use Rattle.std.specs.Cmp.{on_equiv};
    ghost use Rattle.std.specs.Cmp.Lexicographic.{nat_list_eq_equiv};
    ghost use Rattle.transfer.specs.Bytes.{bytes_in};

    ghost laws = { on_equiv bytes_in nat_list_eq_equiv };
}

// By hand, since a derive would print what lies behind the length.
impl<const N: usize> fmt::Debug for Bytes<N> {
    ghost use Rattle.std.specs.Fmt.{debug_list};
    ghost use Rattle.std.specs.Prelude.{Some, decimal};
    ghost use Rattle.transfer.specs.Bytes.{bytes_in};

    ghost debug_output = { λ b. debug_list (λ n. Some (decimal n)) (bytes_in b) };

    fn fmt<W: fmt::Write>(&self, f: &mut fmt::Formatter<W>) -> fmt::Result {
        fmt::Debug::fmt(&self.as_slice(), f)
    }
}
