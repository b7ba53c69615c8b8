//! What bounds a guess, as counts.

/// The most targets of a group: there are 2^n rows of the values of n targets.
pub(crate) const MOST_TARGETS: usize = 12;

/// How many words of patterns are drawn; each has 64.
pub(crate) const WORDS: usize = 192;

/// For so many words all rows are simulated at first.
pub(crate) const FIRST_WORDS: usize = 8;

/// So many words of given patterns are heeded.
pub(crate) const SEEN_WORDS: usize = 16;

/// How often a choice is made anew, with one more word at which the last one was wrong.
pub(crate) const TRIES: usize = 30;

/// How many steps a choice takes: the function of a target is taken, or that of an earlier one is taken back.
pub(crate) const CHOICES: usize = 48;

/// How many functions of a target are chosen from.
pub(crate) const OPTIONS: usize = 6;

/// How many first operands of a pair are tried, of each kind.
pub(crate) const PAIR_FIRSTS: usize = 64;

/// How many first operands of a triple are tried, of each kind.
pub(crate) const TRIPLE_FIRSTS: usize = 12;

/// How many first operands of the pair in a triple are tried, of each kind.
pub(crate) const INNER_FIRSTS: usize = 12;

/// How many words of nodes are computed or compared for a group.
pub(crate) const WORK: u64 = 500_000_000;
