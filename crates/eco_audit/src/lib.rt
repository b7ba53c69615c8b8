//! Whether a report, a patch and a patched netlist solve a problem. The definitions are in `specs/`.
#![tactic(auto)]

mod auditing;
mod bounding;
mod carrying;
mod checking;
mod comparing;
mod filling;
mod finding;
mod forcing;
mod judging;
mod laws;
mod making;
mod naming;
mod reaching;
mod reporting;
mod ruling;
mod solution;

pub use auditing::audit;
pub use eco_meaning::{Bits, Name, OutOfMemory};
pub use eco_pose::{Stuck, Unfinished};
pub use finding::Finding;
pub use laws::{findings_decide, one_finding_is_first, reached_maps_decide, sound_has_no_finding};
pub use ruling::Ruling;
