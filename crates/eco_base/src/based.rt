//! Chosen signals.

use eco_meaning::Bits;
use eco_netlist::NetId;

/// A chosen signal, and two inputs that show that it is needed: the first forces the target to 1, the second to 0, and all
/// other signals of the base have equal values at both.
#[derive(Drop)]
pub struct Based {
    pub net: NetId,
    pub one: Bits,
    pub zero: Bits,
}
