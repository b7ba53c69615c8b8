//! What is told of the nets.

use eco_meaning::Bits;
use eco_netlist::NetId;
use eco_pose::Stuck;

/// A wrong input that stays wrong with any one of these nets cut, whatever values the net has.
#[derive(Drop)]
pub struct Excluding {
    pub input: Bits,
    /// The nets that this input excludes and no input before it does.
    pub nets: Vec<NetId>,
}

/// A net of which the question was given up.
#[derive(Drop)]
pub struct Open {
    pub net: NetId,
    pub stuck: Stuck,
}

/// Each net that a gate drives, in one of three lists.
#[derive(Drop)]
pub struct Located {
    /// Cutting one of these nets suffices: at each input some value of the net makes the outputs right.
    pub listed: Vec<NetId>,
    /// The question about one of these nets was given up.
    pub over: Vec<Open>,
    /// Cutting one of these nets doesn't suffice, as an input shows.
    pub excluding: Vec<Excluding>,
}

/// What is told of the netlist.
#[derive(Drop)]
pub enum Answer {
    /// It meets the specification as it is.
    Equal,
    /// It doesn't, and this is found of its nets.
    Located(Located),
}
