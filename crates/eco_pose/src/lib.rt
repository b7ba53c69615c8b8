//! Questions that the search is asked, as clauses: for an input that listed bits of the targets leave wrong, for two inputs
//! that no function of some signals tells apart, for bits of the targets that are right at an input, and for an input on
//! which two netlists differ; and the answers to the last two. The definitions are in `specs/`.
#![tactic(auto)]

mod asking;
mod board;
mod comparing;
mod fixing;
mod laws;
mod lists;
mod missing;
mod posed;
mod posing;
mod question;
mod separating;
mod unfinished;

pub use asking::{Abandoned, Asked, Searched, search};
pub use board::{Board, constants, lay_out};
pub use comparing::{Equality, ask_equal, equal, pose_equal};
pub use eco_meaning::{Bits, OutOfMemory};
pub use eco_query::Problem;
pub use laws::equivalent_where_nothing_is_wrong;
pub use lists::{Nets, Rows};
pub use missing::posed_input;
pub use posed::{Posed, bits_of};
pub use posing::{pose, pose_differing, pose_fix, pose_rectify, pose_separate};
pub use question::Question;
pub use separating::{base_edges, posed_pair, with_first};
pub use unfinished::{Stuck, Unfinished, ask_fix};
