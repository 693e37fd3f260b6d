// Hexadecimal digits, a byte as two of them, and bytes.
ghost use Rattle.std.specs.Prelude.{◌≡◌, ◌+◌, ◌*◌, ◌<◌, ◌≤◌, ◌++◌, length};
ghost use Rattle.text.specs.Digits.{digit_code, hex_digits, bytes_text};

use arrayvec::ArrayString;

/// The hexadecimal digit of a value from 0 to 15, as a capital.
pub fn digit(value: u8) -> char
    requires { value < 16 }
    ensures value { result ≡ digit_code value }
    ensures ascii { result < 128 }
{
    char::from_digit(value.into(), 16)
        .unwrap()
        .to_ascii_uppercase()
}

/// Puts a byte at the end of the text as two capital hexadecimal digits.
pub fn push_hex<const N: usize>(text: &mut ArrayString<N>, byte: u8)
    requires { length text.old.bytes + 2 ≤ N }
    ensures { text.new.bytes ≡ text.old.bytes ++ hex_digits byte }
{
    text.push(digit(byte / 16));
    text.push(digit(byte % 16));
}

/// Puts the bytes at the end of the text, each as a space and two capital hexadecimal digits.
pub fn push_bytes<const N: usize>(text: &mut ArrayString<N>, bytes: &[u8])
    requires { length text.old.bytes + 3 * length bytes.now ≤ N }
    ensures text { text.new.bytes ≡ text.old.bytes ++ bytes_text bytes.now }
    ensures len { length text.new.bytes ≡ length text.old.bytes + 3 * length bytes.now }
{
    for &byte in bytes {
        text.push_str(" ");
        push_hex(text, byte);
    }
}
