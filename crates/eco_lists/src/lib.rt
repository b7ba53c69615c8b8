//! Lemmas that several crates need: on lists by their places and by their members, on the lines of a text, on names, which
//! are lists of bytes, on tests that are joined, on the values of options and results, and on odd numbers. There is no code here.
#![tactic(auto)]
