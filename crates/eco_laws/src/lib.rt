//! Theorems on what is meant by netlists, patches and choices, which need no code: each main one is the contract of a small
//! function without effect, and its lemma is public.
#![tactic(auto)]

mod asked;
mod candidates;
mod choice;
mod columns;
mod greedy;
mod inputs;
mod nets;
mod patches;
mod rows;
mod turns;

pub use asked::{fixing_bits_are_new, no_answer_is_enough, unfixed_answer_stands};
pub use candidates::{candidates_have_values, functions_rectify};
pub use choice::{front_goes_on, kept_by_turns_is_greedy, shown_base_is_greedy};
pub use columns::rows_tell_signals;
pub use greedy::greedy_base_is_one;
pub use inputs::inputs_are_enough;
pub use nets::{netlists_can_be_filled, nets_depend_on_what_lies_before};
pub use patches::{parts_stand_for_patches, patches_determine, patches_leave_the_splice};
pub use rows::rows_are_few;
pub use turns::{forced_bits_are_all, forced_bits_rectify, patches_show_rectifiable};
