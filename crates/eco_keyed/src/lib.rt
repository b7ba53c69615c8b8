//! A hash for tables whose keys come from files: keyed by the bytes of the file itself, since whoever writes a file could
//! choose keys that fall on one place of a table whose hash is known beforehand. How keys fall is no clause's.
#![tactic(auto)]

ghost use Rattle.std.specs.Prelude.{◌≡◌};
ghost use Rattle.std.specs.Hash.DefaultHasher as sip;

use std::hash::{BuildHasher, DefaultHasher, Hasher};

/// Makes the hashers of a table: SipHash-1-3 (Aumasson, Bernstein, INDOCRYPT 2012), begun with the bytes of a file.
#[derive(Clone, Copy)]
pub struct Keyed {
    begun: DefaultHasher,
}

impl Keyed {
    /// Keyed by these bytes.
    pub fn by(bytes: &[u8]) -> Keyed
        ensures { result.begun ≡ sip.write sip.initial bytes.now }
    {
        let mut begun = DefaultHasher::new();
        begun.write(bytes);
        Keyed { begun }
    }
}

impl BuildHasher for Keyed {
    type Hasher = DefaultHasher;

    ghost build_hasher = { λ keyed. keyed.begun };

    fn build_hasher(&self) -> DefaultHasher {
        self.begun
    }
}
