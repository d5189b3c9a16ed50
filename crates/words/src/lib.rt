// Sets of states as words: bit s is set where state s is in the set.
#![tactic(auto)]

ghost use Rattle.std.specs.Prelude.{◌≡◌};
ghost use Rattle.std.specs.Int.Bits.{bit_or, bit_and};
ghost use Rattle.std.specs.Iterator.{at_most};
ghost use Rattle.words.specs.Words.{member, With, All, Size};
ghost use Rattle.words.specs.Members.{Next};

// Whether state s is in the set. No set has a state from 64 on.
#[tactic(auto, using(crate::proofs::Words::no_state_from_64))]
pub fn has(set: u64, s: u8) -> bool
    ensures { result ≡ member set s }
{
    s < 64 && (set >> s) % 2 == 1
}

// The set with state s. No set takes a state from 64 on.
pub fn with(set: u64, s: u8) -> u64
    ensures { With set s result }
{
    if s < 64 { set | 1u64 << s } else { set }
}

// The states in either set.
pub fn union(a: u64, b: u64) -> u64
    ensures { result ≡ bit_or a b }
{
    a | b
}

// The states in both sets.
pub fn meet(a: u64, b: u64) -> u64
    ensures { result ≡ bit_and a b }
{
    a & b
}

// All n states, and all 64 where n is above 64.
pub fn all(n: usize) -> u64
    ensures { All n result }
{
    if n >= 64 {
        return u64::MAX;
    }
    (1u64 << n) - 1
}

// How many states are in the set.
#[tactic(auto, using(crate::proofs::Words::size_of_word))]
pub fn size(set: u64) -> u32
    ensures { Size set result }
{
    set.count_ones()
}

// The states that are left of a set, of which the lowest comes next.
#[derive(Drop)]
pub struct LowestFirst {
    left: u64,
}

impl Iterator for LowestFirst {
    type Item = usize;

    ghost next_gives = { λ s r t. Next s.left r t.left };

    ghost remaining = { λ s. at_most s.left };

    #[inline]
    #[tactic(auto, using(crate::proofs::Bits::lowest))]
    fn next(&mut self) -> Option<usize> {
        if self.left == 0 {
            return None;
        }
        let lowest = self.left.trailing_zeros() as usize;
        self.left &= self.left - 1;
        Some(lowest)
    }
}

// The states of the set, lowest first.
#[inline]
pub fn members(set: u64) -> LowestFirst
    ensures { result.left ≡ set }
{
    LowestFirst { left: set }
}
