//! Questions of one problem, posed over one graph in which what is equal is merged. The definitions are in `specs/`.
#![tactic(auto)]

mod desk;
mod encoding;
mod engine;
mod known_rows;
mod left;
mod nets;
mod separating;
mod sizes;
mod swept;
mod turned;

pub use engine::Engine;
