// Numbers and bytes as text: how they are read and how they are written.
#![tactic(auto)]

ghost use Rattle.std.specs.Prelude.{◌≡◌, ℕ, ◌^◌, ◌<◌, ◌≤◌, Some};
ghost use Rattle.numerals.specs.Hexes.{figure, hex, pair, bytes};
ghost use Rattle.numerals.specs.Numbers.{IsNumber, number};
ghost use Rattle.std.specs.Option.{SomeIff};
ghost use Rattle.std.specs.Str.Parse.{IsNumeral, digits_value};
ghost use Rattle.std.specs.Fmt.{WritesOnOk};

use std::fmt;

/// The number that the digits write, with no sign.
fn unsigned(digits: &str, radix: u32) -> Option<u64>
    requires { (2 ≤ radix) × (radix ≤ 36) }
    ensures { SomeIff result (IsNumeral radix digits.now × (digits_value radix digits.now < 2 ^ 64)) (digits_value radix digits.now) }
{
    // `from_str_radix` takes a plus
    if digits.starts_with('+') {
        return None;
    }
    u64::from_str_radix(digits, radix).ok()
}

/// The number that a word writes: decimal, or hexadecimal after `0x`, of 64 bits at most.
/// A number that `Hex` has written is read back as it was.
pub fn parse_number(word: &str) -> Option<u64>
    ensures exact { SomeIff result (IsNumber word.now) (number word.now) }
    ensures back { (n : ℕ) → n < 2 ^ 64 → word.now ≡ hex n → result ≡ Some n }
{
    match word.strip_prefix("0x") {
        Some(digits) => unsigned(digits, 16),
        None => unsigned(word, 10),
    }
}

/// A number as it is written: hexadecimal after `0x`, in lower case, without leading zeros.
#[derive(Clone, Copy, Drop)]
pub struct Hex(pub u64);

/// Bytes as they are written: two lower-case digits each, and `-` where there are none.
#[derive(Clone, Copy, Drop)]
pub struct HexBytes<'a>(pub &'a [u8]);

/// The figure of a digit.
fn figure_of(digit: u8) -> char
    requires { digit < 16 }
    ensures value { result ≡ figure digit }
    ensures ascii { result < 128 }
{
    char::from_digit(u32::from(digit), 16).unwrap()
}

/// Writes the two figures of a byte. `{:02x}` in their place (tried) takes half as much time again.
fn put_pair<W: fmt::Write>(byte: u8, f: &mut fmt::Formatter<W>) -> fmt::Result
    ensures { WritesOnOk W.write_str_gives f.old result (pair byte) f.new }
{
    f.write_char(figure_of(byte / 16))?;
    f.write_char(figure_of(byte % 16))
}

impl fmt::Display for Hex {
    ghost output = { λ x. Some (hex x.0) };

    fn fmt<W: fmt::Write>(&self, f: &mut fmt::Formatter<W>) -> fmt::Result {
        // `{:#x}` leaves a goal: std's contract does not say which mark it writes
        let n = self.0;
        write!(f, "0x{n:x}")
    }
}

impl<'a> fmt::Display for HexBytes<'a> {
    ghost output = { λ x. Some (bytes x.0.now) };

    fn fmt<W: fmt::Write>(&self, f: &mut fmt::Formatter<W>) -> fmt::Result {
        if self.0.is_empty() {
            return f.write_str("-");
        }
        // a `try_for_each` here leaves open what was written (tried): nothing is known of what its
        // closure changed
        for &b in self.0 {
            put_pair(b, f)?;
        }
        Ok(())
    }
}
