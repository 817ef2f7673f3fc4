//! Bytes in hexadecimal, two digits each.
ghost use Rattle.std.specs.Prelude.{Some};
ghost use Rattle.lines.specs.Hex.{hex_of};

use std::fmt;

/// Some bytes, one after another.
#[derive(Clone, Copy)]
pub struct Hex<'a>(pub &'a [u8]);

impl fmt::Display for Hex<'_> {
    ghost output = { λ h. Some (hex_of h.0.now) };

    // Digit by digit: `{:02x}` takes half as long again for a byte below 16.
    fn fmt<W: fmt::Write>(&self, f: &mut fmt::Formatter<W>) -> fmt::Result {
        for &byte in self.0 {
            let high = char::from_digit(u32::from(byte / 16), 16).unwrap();
            let low = char::from_digit(u32::from(byte % 16), 16).unwrap();
            write!(f, "{high}{low}")?;
        }
        Ok(())
    }
}
