//! Netlists at 64 inputs at once.

use eco_netlist::Netlist;
use std::process::Abort;
use std::test::Fail;

/// The values of six inputs in 64 rows, one row in each bit.
const SIX: [u64; 6] = [
    0xaaaa_aaaa_aaaa_aaaa,
    0xcccc_cccc_cccc_cccc,
    0xf0f0_f0f0_f0f0_f0f0,
    0xff00_ff00_ff00_ff00,
    0xffff_0000_ffff_0000,
    0xffff_ffff_0000_0000,
];

/// For each net its values in 64 rows: those of the first six inputs differ from row to row, the others have the bits of `block`.
pub fn words_of(
    rt: &(impl Abort + AllocGlobal),
    netlist: &Netlist,
    block: u64,
) -> Result<Vec<u64>, Fail> {
    let mut words = Vec::new(rt.alloc());
    for _ in 0..netlist.nets() {
        words.push(0)?;
    }
    for (number, net) in netlist.inputs().iter().enumerate() {
        if let Some(word) = words.get_mut(net.0 as usize) {
            *word = input_word(number, block);
        }
    }
    assert!(rt; words.len() as u64 == netlist.nets());
    netlist.fill_words(words.as_mut_slice());
    Ok(words)
}

/// The values of the input of this number.
fn input_word(number: usize, block: u64) -> u64 {
    match SIX.get(number) {
        Some(word) => *word,
        None => bit_word(block >> ((number - 6) as u64 & 63)),
    }
}

/// The last bit in each place.
fn bit_word(number: u64) -> u64 {
    if number & 1 == 1 { u64::MAX } else { 0 }
}
