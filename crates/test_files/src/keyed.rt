//! Hashes of names, whose tables are keyed by a file.

use eco_keyed::Keyed;
use std::hash::{BuildHasher, Hasher};

fn hash_of(file: &[u8], name: &[u8]) -> u64 {
    let mut hasher = Keyed::by(file).build_hasher();
    hasher.write(name);
    hasher.finish()
}

/// Files, each with what Rust's `DefaultHasher` gives for its bytes and those of the name `n1`.
const HASHES: [(&[u8], u64); 3] = [
    (b"", 0xb91c_d34b_f061_a2ec),
    (b"module f(a);", 0xf872_fef3_64cc_744b),
    (b"module f(b);", 0x086c_c934_e91f_8e3b),
];

#[test]
fn one_name_in_three_files(rt: HostRuntime) {
    for (file, hash) in &HASHES {
        assert_eq!(rt; hash_of(file, b"n1"), *hash);
    }
}
