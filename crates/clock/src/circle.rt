// Numbers on a circle of 2^32, and their signed distances.
ghost use Rattle.std.specs.Prelude.{◌≡◌};
ghost use Rattle.clock.specs.Circle.{distance_of, later_than, apart_by};

// How far a lies after b: from -2^31 to 2^31 - 1.
#[tactic(auto, unfolding(ground::specs::Choice::pick, crate::specs::Circle::minus, crate::specs::Circle::signed_of, crate::specs::Circle::distance_of))]
pub(crate) fn distance(a: u32, b: u32) -> i64
    ensures { result ≡ distance_of a b }
{
    i64::from(a.wrapping_sub(b).cast_signed())
}

// Whether a is later than b.
#[tactic(auto, unfolding(crate::specs::Circle::later_than))]
pub(crate) fn later(a: u32, b: u32) -> bool
    ensures { result ≡ later_than a b }
{
    distance(a, b) > 0
}

// How far two numbers lie apart.
#[tactic(auto, unfolding(crate::specs::Circle::apart_by))]
pub(crate) fn apart(a: u32, b: u32) -> u64
    ensures { result ≡ apart_by a b }
{
    distance(a, b).unsigned_abs()
}
