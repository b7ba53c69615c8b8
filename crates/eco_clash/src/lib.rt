//! Tuples of inputs that no one row of the targets' bits serves, and what each patch costs at least by them: theorems that need
//! no code, each the contract of a small function without effect. The definitions are in `specs/`.
#![tactic(auto)]

mod costs;
mod questions;
mod together;

pub use costs::{answers_cost_at_least, patches_tell_clashes, rows_bound_patches};
pub use questions::{fixed_rows_are_new, unfixed_tuples_clash};
pub use together::{none_together_is_enough, together_suffices_for_first};
