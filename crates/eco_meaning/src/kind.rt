//! The kinds of gates.

ghost use Rattle.std.specs.Prelude.{◌≡◌, length};
ghost use Rattle.std.specs.List.{list_all, list_any};
ghost use Rattle.eco_meaning.specs.Gates.{apply, is_odd, FitsKind};

/// The kind of a gate: one of the primitive gates of IEEE 1364-2005, sections 7.2 and 7.3.
#[derive(Clone, Copy, PartialEq, Eq)]
pub enum Kind {
    And,
    Nand,
    Or,
    Nor,
    Xor,
    Xnor,
    Buf,
    Not,
}

impl Kind {
    /// The value of a gate of this kind at these input bits (IEEE 1364-2005, tables 7-3 and 7-4, without x
    /// and z). With one input `and`, `or` and `xor` give that bit, and `nand`, `nor` and `xnor` its complement.
    pub fn apply(self, bits: &[bool]) -> bool
        requires { FitsKind self (length bits.now) }
        ensures value { result ≡ apply self bits.now }
    {
        match self {
            Kind::And => are_all_ones(bits),
            Kind::Nand => !are_all_ones(bits),
            Kind::Or => has_one(bits),
            Kind::Nor => !has_one(bits),
            Kind::Xor => has_odd_ones(bits),
            Kind::Xnor => !has_odd_ones(bits),
            Kind::Buf => bits[0],
            Kind::Not => !bits[0],
        }
    }
}

fn are_all_ones(bits: &[bool]) -> bool
    ensures { result ≡ list_all (λ bit. bit) bits.now }
{
    bits.iter().all(|bit| *bit)
}

fn has_one(bits: &[bool]) -> bool
    ensures { result ≡ list_any (λ bit. bit) bits.now }
{
    bits.iter().any(|bit| *bit)
}

fn has_odd_ones(bits: &[bool]) -> bool
    ensures { result ≡ is_odd bits.now }
{
    bits.iter().filter(|bit| **bit).count() % 2 == 1
}
