// The factor, 7.4.4: the mean of sixteen differences, as signed distances from the newest one.
ghost use Rattle.std.specs.Prelude.{◌≡◌, pos, ◌+ℤ◌};
ghost use Rattle.clock.specs.Factor.{difference_of, spread_of, floor16, around, mean_of, fronted};

use crate::Pair;
use crate::circle::distance;

// The new pair at the front; the oldest falls out.
#[tactic(auto, unfolding(crate::specs::Factor::fronted))]
pub(crate) fn shifted(pairs: [Pair; 16], new: Pair) -> [Pair; 16]
    ensures { result ≡ fronted new pairs }
{
    let mut shifted = pairs;
    shifted.copy_within(..15, 1);
    shifted[0] = new;
    shifted
}

// Reference time less local time, modulo 2^32.
#[tactic(auto, unfolding(crate::specs::Circle::minus, crate::specs::Factor::difference_of))]
pub(crate) fn difference(p: Pair) -> u32
    ensures { result ≡ difference_of p }
{
    p.reference.0.wrapping_sub(p.local.0)
}

// The sum of the signed distances of the differences from `base`.
fn spread(pairs: [Pair; 16], base: u32) -> i64
    ensures { result ≡ spread_of base pairs }
{
    let mut sum = 0;
    for pair in &pairs {
        sum += distance(difference(*pair), base);
    }
    sum
}

// A sixteenth, rounded down: the signed shift rounds so, where a division would round towards zero.
#[tactic(auto, using(crate::proofs::Averages::floor_is))]
fn sixteenth(s: i64) -> i64
    ensures { result ≡ floor16 s }
{
    s >> 4
}

// base + m, modulo 2^32.
#[tactic(auto, using(crate::proofs::Averages::low_is, crate::proofs::Averages::around_add))]
fn moved(base: u32, m: i64) -> u32
    ensures { result ≡ around (pos base +ℤ m) }
{
    let low = (m & 0xffff_ffff) as u32;
    base.wrapping_add(low)
}

// The newest difference, moved by the mean distance from it.
#[tactic(auto, using(crate::proofs::Averages::mean_is))]
pub(crate) fn mean(pairs: [Pair; 16]) -> u32
    ensures { result ≡ mean_of pairs }
{
    let base = difference(pairs[0]);
    moved(base, sixteenth(spread(pairs, base)))
}
