//! Printed lines.

ghost use Rattle.std.specs.Prelude.{◌≡◌, ◌++◌, codes, decimal, map, IfOk};
ghost use Rattle.eco_report.specs.Texts.{bit_digit};

use eco_netlist::OutOfMemory;
use itoa::Buffer;
use std::alloc::Global;

/// A line of these two parts.
pub fn line(alloc: Global, start: &[u8], end: &[u8]) -> Result<Vec<u8>, OutOfMemory>
    ensures { IfOk result (λ text. text.items ≡ start.now ++ end.now ++ codes "\n") }
{
    let mut text = Vec::from_slice(alloc, start)?;
    text.extend_from_slice(end)?;
    text.extend_from_slice(b"\n")?;
    Ok(text)
}

/// A line that ends with this number.
pub fn number_line(alloc: Global, start: &[u8], number: u64) -> Result<Vec<u8>, OutOfMemory>
    ensures { IfOk result (λ text. text.items ≡ start.now ++ decimal number ++ codes "\n") }
{
    let mut buffer = Buffer::new();
    line(alloc, start, buffer.format(number).as_bytes())
}

/// A line that ends with these bits.
pub fn bits_line(alloc: Global, start: &[u8], bits: &[bool]) -> Result<Vec<u8>, OutOfMemory>
    ensures { IfOk result (λ text. text.items ≡ start.now ++ map bit_digit bits.now ++ codes "\n") }
{
    let digits: Vec<u8> = bits
        .iter()
        .map(|bit| if *bit { b'1' } else { b'0' })
        .collect(alloc)?;
    line(alloc, start, digits.as_slice())
}
