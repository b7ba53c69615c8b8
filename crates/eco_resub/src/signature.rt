//! The values that a function has at all patterns, a bit for each.

/// How many words a signature has: 64 patterns in each, those where the function has to be 1 in the even ones, those where it
/// has to be 0 in the odd ones.
pub(crate) const WORDS: usize = 22;

/// How many patterns there is room for where the function has to be 1, and as many where it has to be 0.
pub(crate) const PATTERNS: usize = 704;

/// A bit for each pattern.
#[derive(Clone, Copy)]
pub(crate) struct Signature {
    words: [u64; WORDS],
}

impl Signature {
    /// No bit is set.
    pub(crate) const EMPTY: Signature = Signature { words: [0; WORDS] };

    /// The word of this number, 0 where there is none.
    pub(crate) fn word(&self, place: usize) -> u64 {
        match self.words.get(place) {
            None => 0,
            Some(word) => *word,
        }
    }

    /// Puts the word in its place.
    pub(crate) fn set(&mut self, place: usize, word: u64) {
        if let Some(old) = self.words.get_mut(place) {
            *old = word;
        }
    }

    /// The bits turned.
    pub(crate) fn not(&self) -> Signature {
        let mut turned = *self;
        for word in turned.words.iter_mut() {
            *word = !*word;
        }
        turned
    }

    /// The bits that both have.
    pub(crate) fn and(&self, other: &Signature) -> Signature {
        let mut both = *self;
        for (word, second) in both.words.iter_mut().zip(other.words.iter()) {
            *word = *word & *second;
        }
        both
    }

    /// The bits that just one has.
    pub(crate) fn xor(&self, other: &Signature) -> Signature {
        let mut one = *self;
        for place in 0..WORDS {
            one.words[place] = one.words[place] ^ other.words[place];
        }
        one
    }

    /// Puts a bit into a word.
    pub(crate) fn put(&mut self, place: usize, bit: usize, value: bool) {
        if let Some(word) = self.words.get_mut(place) {
            let mask = 1_u64 << (bit % 64);
            *word = if value { *word | mask } else { *word & !mask };
        }
    }

    /// The bits that any has.
    pub(crate) fn or(&self, other: &Signature) -> Signature {
        let mut any = *self;
        for (word, second) in any.words.iter_mut().zip(other.words.iter()) {
            *word = *word | *second;
        }
        any
    }

    /// The bits that this one has and the other hasn't.
    pub(crate) fn without(&self, other: &Signature) -> Signature {
        let mut left = *self;
        for (word, second) in left.words.iter_mut().zip(other.words.iter()) {
            *word = *word & !*second;
        }
        left
    }

    /// How many bits are set.
    pub(crate) fn count(&self) -> u64 {
        let mut count: u64 = 0;
        for word in &self.words {
            count = count.saturating_add(u64::from(word.count_ones()));
        }
        count
    }

    /// Whether no bit is set.
    pub(crate) fn is_empty(&self) -> bool {
        for word in &self.words {
            if *word != 0 {
                return false;
            }
        }
        true
    }

    /// Whether it shares no bit with the other, whose bits are turned where `flip` is all ones.
    pub(crate) fn misses(&self, other: &Signature, flip: u64) -> bool {
        for (word, second) in self.words.iter().zip(other.words.iter()) {
            if *word & (*second ^ flip) != 0 {
                return false;
            }
        }
        true
    }
}
