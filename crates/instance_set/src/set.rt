//! A set of instances as four words of bits.
ghost use Rattle.std.specs.Prelude.{◌≡◌, ℕ, ◌<◌, ◌≤◌, ◌==◌, ◌&&◌, ◌||◌, ◌↔◌, ◌*◌, not, false, length, IsTrue, Some, if◌then◌else◌};
ghost use Rattle.std.specs.Int.{bit_at};
ghost use Rattle.instance_set.specs.InstanceSets.{word_of, is_member, members, IsWithin, IsLeastFrom};

/// A set of instances, whose numbers are below 256. Each call takes a few instructions.
#[derive(Clone, Copy, Debug, PartialEq, Eq)]
pub struct InstanceSet {
    w0: u64,
    w1: u64,
    w2: u64,
    w3: u64,
}

impl InstanceSet {
    /// The set without members.
    pub fn empty() -> InstanceSet
        ensures { (j : ℕ) → is_member result j ≡ false }
    {
        InstanceSet {
            w0: 0,
            w1: 0,
            w2: 0,
            w3: 0,
        }
    }

    /// Whether instance `j` is a member. None from 256 on is.
    pub fn contains(&self, j: u32) -> bool
        ensures { result ≡ is_member self.now j }
    {
        j < 256 && (self.word(j / 64) >> (j % 64)) & 1 == 1
    }

    /// Takes instance `j` in.
    pub fn insert(&mut self, j: u32)
        requires { j < 256 }
        ensures { (k : ℕ) → is_member self.new k ≡ (is_member self.old k || (k == j)) }
    {
        let word = self.word(j / 64) | 1u64 << (j % 64);
        *self = self.with_word(j / 64, word);
    }

    /// Takes instance `j` out.
    pub fn remove(&mut self, j: u32)
        requires { j < 256 }
        ensures { (k : ℕ) → is_member self.new k ≡ (is_member self.old k && not (k == j)) }
    {
        let word = self.word(j / 64) & !(1u64 << (j % 64));
        *self = self.with_word(j / 64, word);
    }

    /// The instances of either set.
    pub fn union(self, other: InstanceSet) -> InstanceSet
        ensures { (j : ℕ) → is_member result j ≡ (is_member self j || is_member other j) }
    {
        InstanceSet {
            w0: self.w0 | other.w0,
            w1: self.w1 | other.w1,
            w2: self.w2 | other.w2,
            w3: self.w3 | other.w3,
        }
    }

    /// The instances of both sets.
    pub fn intersection(self, other: InstanceSet) -> InstanceSet
        ensures { (j : ℕ) → is_member result j ≡ (is_member self j && is_member other j) }
    {
        InstanceSet {
            w0: self.w0 & other.w0,
            w1: self.w1 & other.w1,
            w2: self.w2 & other.w2,
            w3: self.w3 & other.w3,
        }
    }

    /// The instances of this set that the other has not.
    pub fn difference(self, other: InstanceSet) -> InstanceSet
        ensures { (j : ℕ) → is_member result j ≡ (is_member self j && not (is_member other j)) }
    {
        InstanceSet {
            w0: self.w0 ^ (self.w0 & other.w0),
            w1: self.w1 ^ (self.w1 & other.w1),
            w2: self.w2 ^ (self.w2 & other.w2),
            w3: self.w3 ^ (self.w3 & other.w3),
        }
    }

    /// Whether each member of this set is one of the other.
    pub fn is_within(self, other: InstanceSet) -> bool
        ensures { IsTrue result ↔ IsWithin self other }
    {
        self.difference(other).is_empty()
    }

    /// Whether there is no member.
    pub fn is_empty(&self) -> bool
        ensures { IsTrue result ↔ ((j : ℕ) → is_member self.now j ≡ false) }
    {
        self.least_from(0).is_none()
    }

    /// How many members there are.
    pub fn count(&self) -> u32
        ensures { result ≡ length (members self.now) }
    {
        self.w0.count_ones() + self.w1.count_ones() + self.w2.count_ones() + self.w3.count_ones()
    }

    /// The least member from a number on. Going over the members takes a call for each, and so a
    /// few instructions for each bit that is set.
    pub fn least_from(&self, from: u32) -> Option<u32>
        ensures { IsLeastFrom self.now from result }
    {
        if 256 <= from {
            return None;
        }
        let word = self.word(from / 64) >> (from % 64);
        if word == 0 {
            return self.least_of_words(from / 64 + 1);
        }
        Some(from + word.trailing_zeros())
    }

    /// The least member in the words from word `k` on.
    fn least_of_words(&self, k: u32) -> Option<u32>
        requires { k ≤ 4 }
        ensures { IsLeastFrom self.now (64 * k) result }
    {
        if k == 4 {
            return None;
        }
        let word = self.word(k);
        if word == 0 {
            return self.least_of_words(k + 1);
        }
        Some(64 * k + word.trailing_zeros())
    }

    fn word(&self, k: u32) -> u64
        ensures { result ≡ word_of self.now k }
    {
        match k {
            0 => self.w0,
            1 => self.w1,
            2 => self.w2,
            _ => self.w3,
        }
    }

    fn with_word(self, k: u32, word: u64) -> InstanceSet
        requires { k < 4 }
        ensures { (i : ℕ) → i < 4 → word_of result i ≡ (if i == k then word else word_of self i) }
    {
        match k {
            0 => InstanceSet { w0: word, ..self },
            1 => InstanceSet { w1: word, ..self },
            2 => InstanceSet { w2: word, ..self },
            _ => InstanceSet { w3: word, ..self },
        }
    }
}
