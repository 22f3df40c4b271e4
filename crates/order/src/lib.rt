// Pass orders as 64-bit numbers: bit 0 is the earliest pass, a 1 is a second pass, a 0 a first pass. And the passes of a flight by their numbers.
#![tactic(auto)]

ghost use Rattle.std.specs.Prelude.{◌≡◌, ◌+◌, ◌*◌, ◌≤◌, ◌<◌, ◌^◌, length};
ghost use Rattle.order.specs.Order.{bit, seconds, firsts, is_proper};
ghost use Rattle.order.specs.Passes.{pass_at, time_of};

// The bits of an order number, and the blocks whose passes fill them.
const BITS: u64 = 64;

const BLOCKS: u64 = 32;

// Bit k, the pass at position k from 0: 1 for a second pass, 0 for a first pass.
fn bit(x: u64, k: u64) -> u64
    ensures { result ≡ bit x k }
{
    if k < BITS { (x >> k) % 2 } else { 0 }
}

// The second passes among the first k passes.
pub fn seconds_before(x: u64, k: u64) -> u64
    ensures { result ≡ seconds x k }
{
    if BITS <= k {
        return u64::count_ones(x) as u64;
    }
    u64::count_ones(x & ((1 << k) - 1)) as u64
}

// The first passes among the first k passes.
#[tactic(auto, using(crate::specs::Seconds::seconds_le), unfolding(crate::specs::Order::firsts))]
pub fn firsts_before(x: u64, k: u64) -> u64
    ensures { result ≡ firsts x k }
{
    k - seconds_before(x, k)
}

// A beginning of k passes followed by a second pass. (Followed by a first pass it is the same number.)
pub fn append_second(x: u64, k: u64) -> u64
    requires { (k < 64) × (x < 2 ^ k) }
    ensures { result ≡ x + 2 ^ k }
{
    x + (1 << k)
}

// Whether x is a proper order of n blocks. Where the whole number and its lowest 2n bits both have n ones, no higher bit is set;
// the beginnings of no pass and of all passes then need no test.
pub fn proper(n: u64, x: u64) -> bool
    ensures { result ≡ is_proper n x }
{
    if BLOCKS < n {
        return false;
    }
    if seconds_before(x, BITS) != n {
        return false;
    }
    let passes = 2 * n;
    if seconds_before(x, passes) != n {
        return false;
    }
    for k in 1..passes {
        if firsts_before(x, k) < seconds_before(x, k) {
            return false;
        }
    }
    true
}

// The pass of n blocks at position k: the first pass of block i is pass i, its second pass is pass n + i.
#[tactic(auto, using(crate::specs::Seconds::seconds_le), unfolding(crate::specs::Passes::pass_at))]
pub fn pass_at(n: usize, order: u64, k: usize) -> usize
    requires { (n ≤ 32) × (k < 64) }
    ensures { result ≡ pass_at n order k }
{
    let at = k as u64;
    if bit(order, at) == 1 {
        return n + seconds_before(order, at) as usize;
    }
    firsts_before(order, at) as usize
}

// The time that pass p of n blocks takes.
#[tactic(auto, unfolding(crate::specs::Passes::time_of))]
pub fn time_of(n: usize, first: &[u64], second: &[u64], p: usize) -> u64
    requires { (n ≤ length first.now) × (n ≤ length second.now) × (p < 2 * n) }
    ensures { result ≡ time_of n first.now second.now p }
{
    if p < n { first[p] } else { second[p - n] }
}
