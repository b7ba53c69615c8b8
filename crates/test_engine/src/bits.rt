//! Rows of bits as numbers: the first bit is the lowest.

/// Whether the bit at this place is 1.
pub fn has_bit(number: u64, place: u64) -> bool {
    (number >> (place % 64)) & 1 == 1
}

/// The number that has the bit at this place alone.
pub fn one_at(place: u64) -> u64 {
    1 << (place % 64)
}

/// The lowest bits of the number, so many of them.
pub fn lowest(number: u64, count: u64) -> u64 {
    number % one_at(count).max(1)
}

/// The number whose lowest bits are these.
pub fn number_of(row: &[bool]) -> u64 {
    let mut number = 0;
    for (place, bit) in row.iter().enumerate() {
        number |= place_value(*bit, place as u64);
    }
    number
}

/// The number that has this bit at the place, and no other.
pub fn place_value(bit: bool, place: u64) -> u64 {
    if bit { one_at(place) } else { 0 }
}
