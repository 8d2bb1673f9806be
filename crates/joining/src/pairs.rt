// The pairs: judging them, and the places that they give to the second book's options. A pair is two bytes, an option of the first book and one of the second.
ghost use Rattle.std.specs.Prelude.{◌≡◌, ℕ, ◌-◌, ◌^◌, ◌≤◌, ◌<◌, get_or, bit_or};
ghost use Rattle.joint.specs.Pairs.{pair_count, at_fault, partner_or, paired as paired_in, place};
ghost use Rattle.joint.specs.Join.{pairs_fault};
ghost use Rattle.joining.specs.Promises.{judged_as, NoneZero};

use crate::rename::Places;

// The options taken and option k beside them; nothing where k is none of the n, or already taken.
fn take(n: u32, taken: u64, k: u32) -> Option<u64>
    requires { n ≤ 64 }
    ensures { result ≡ judged_as (at_fault n taken k) (bit_or taken (2 ^ (k - 1))) }
{
    if k == 0 {
        return None;
    }
    if n < k {
        return None;
    }
    let option = words::word_of(k - 1);
    if words::meets(taken, option) {
        return None;
    }
    Some(taken | option)
}

// The second book's paired options; nothing where a pair is at fault. The books have n and m options.
pub fn judge(n: u32, m: u32, pairs: &[u8]) -> Option<u64>
    requires { (n ≤ 64) × (m ≤ 64) }
    ensures { result ≡ judged_as (pairs_fault n m pairs.now) (paired_in pairs.now) }
{
    let (pairs, left_over) = pairs.as_chunks::<2>();
    if !left_over.is_empty() {
        return None;
    }
    let mut first = 0;
    let mut second = 0;
    for [a, b] in pairs {
        first = take(n, first, u32::from(*a))?;
        second = take(m, second, u32::from(*b))?;
    }
    Some(second)
}

// The place of the first book's option that is paired with the second's option k + 1, and d where none is.
fn partner_or(d: u32, pairs: &[u8], k: u32) -> u32
    requires { (k < 64) × NoneZero pairs.now }
    ensures { result ≡ partner_or d pairs.now (pair_count pairs.now) k }
{
    let mut at = d;
    for [a, b] in pairs.as_chunks::<2>().0 {
        if u32::from(*b) == k + 1 {
            at = u32::from(*a) - 1;
        }
    }
    at
}

// The places of the second book's m options, whose paired ones are `paired`, after a first book of n options.
pub fn places(n: u32, m: u32, pairs: &[u8], paired: u64) -> Places
    requires { (n ≤ 64) × (m ≤ 64) × (paired ≡ paired_in pairs.now) × NoneZero pairs.now × ((k : ℕ) → k < m → place n pairs.now k < 64) }
    ensures { (k : ℕ) → k < m → get_or result.of k 0 ≡ place n pairs.now k }
{
    let mut of = [0u32; 64];
    for k in 0..m {
        let before = words::count_of(words::minus(words::first_of(k), paired));
        of[k as usize] = partner_or(n + before, pairs, k);
    }
    Places { of }
}
