// A word of 64 bits as a set of the variables 0 to 63: variable k is a member where bit k is set.
// Each function computes one definition of `specs/Words.antt`, or a count of the word's bits, at 64 bits.
#![tactic(auto)]

ghost use Rattle.std.specs.Prelude.{◌≡◌, min, ◌^◌, ◌<◌};
ghost use Rattle.std.specs.Int.Count.{ones, count_trailing_zeros};
ghost use Rattle.std.specs.Iterator.{item_count};
ghost use Rattle.words.specs.Words.{digit, has, lowest, Highest, minus, meets, first_vars, numbers, Gives};

// The number of the lowest member of x, and 64 where x is empty.
pub fn lowest_var(x: u64) -> u32
    ensures { result ≡ count_trailing_zeros 64 x }
{
    u64::trailing_zeros(x)
}

// The number of the highest member of x. Public for crate `pricing`, which shows that x has one.
pub fn highest_var(x: u64) -> u32
    requires { 0 < x }
    ensures { Highest x result }
{
    63 - u64::leading_zeros(x)
}

// The word of the variable of number k.
pub fn word_of(k: u32) -> u64
    requires { k < 64 }
    ensures { result ≡ 2 ^ k }
{
    1 << k
}

// 1 where the variable of number k is a member of x, and else 0.
#[tactic(auto, using(crate::proofs::Membership::lowest_digit), unfolding(crate::specs::Words::has))]
pub fn bit_of(x: u64, k: u32) -> u64
    requires { k < 64 }
    ensures { result ≡ digit (has x k) }
{
    (x >> k) % 2
}

// The lowest member of x, as a word of one variable, and 0 where x is empty.
#[tactic(auto, using(crate::proofs::Lowest::lowest_zero, crate::proofs::Sets::nonzero, crate::proofs::Count::lowest_trailing, crate::proofs::Count::trailing_lt))]
pub fn lowest_of(x: u64) -> u64
    ensures { result ≡ lowest x }
{
    if x == 0 {
        return 0;
    }
    word_of(lowest_var(x))
}

// x without its lowest member.
#[tactic(auto, using(crate::proofs::Sets::minus_minus), unfolding(crate::specs::Words::lowest))]
pub fn rest_of(x: u64) -> u64
    requires { 0 < x }
    ensures { result ≡ minus x (lowest x) }
{
    x & (x - 1)
}

// How many members x has.
pub fn count_of(x: u64) -> u32
    ensures { result ≡ ones x }
{
    u64::count_ones(x)
}

// The word of the first n variables, and of all 64 where n is larger.
#[tactic(auto, unfolding(crate::specs::Words::first_vars))]
pub fn first_of(n: u32) -> u64
    ensures { result ≡ first_vars (min n 64) }
{
    if n < 64 {
        (1 << n) - 1
    } else {
        18446744073709551615
    }
}

// a without the members of b.
#[tactic(auto, unfolding(crate::specs::Words::minus))]
pub fn minus(a: u64, b: u64) -> u64
    ensures { result ≡ minus a b }
{
    a - (a & b)
}

// Whether a and b share a member.
#[tactic(auto, using(crate::proofs::Sets::is_zero_test), unfolding(crate::specs::Words::meets))]
pub fn meets(a: u64, b: u64) -> bool
    ensures { result ≡ meets a b }
{
    (a & b) != 0
}

// The members of a word that a walk has still to come to.
#[derive(Clone, Copy)]
pub struct Numbers {
    pub left: u64,
}

// The numbers of the members of x, lowest first, as in `for k in words::members(x)`.
pub fn members(x: u64) -> Numbers
    ensures { result.left ≡ x }
{
    Numbers { left: x }
}

impl Iterator for Numbers {
    type Item = u32;

    ghost next_gives = { λ s r t. Gives s.left r t.left };

    ghost remaining = { item_count (λ s. numbers s.left) };

    fn next(&mut self) -> Option<u32> {
        let x = self.left;
        if x == 0 {
            return None;
        }
        self.left = rest_of(x);
        Some(lowest_var(x))
    }
}
