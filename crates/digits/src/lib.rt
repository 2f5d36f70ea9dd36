// Numbers as digits of six bits: each digit picks a number of its row, and the rows of rows48 and rows32 hold what it
// leaves in the register of the check word. specs/Digits says which places of which rows the digits pick, and
// proofs/Digits how a loop comes to their exclusive-or.
#![tactic(auto)]

ghost use Rattle.std.specs.Prelude.{◌≡◌, ◌%◌, List, ℕ, get_or};
ghost use Rattle.std.specs.Int.Bits.{bit_xor};
ghost use Rattle.digits.specs.Digits.{picked};

// Eleven rows of 64 numbers, one for each digit of a number of 64 bits.
pub trait Rows {
    // Rows 0 to 4, of the lowest digits, and rows 5 to 10, of those above them: in each list one row after the other.
    ghost low: { List ℕ };

    ghost high: { List ℕ };

    // The number at a place; past the end the places begin anew.
    fn low_at(place: u64) -> u64
        ensures { result ≡ get_or low (place % 320) 0 };

    fn high_at(place: u64) -> u64
        ensures { result ≡ get_or high (place % 384) 0 };
}

// What the five lowest digits of `v` leave. This loop and that of `high` stay two: one for both would be given a
// closure that reads, how many digits, and where they begin, and would say less than the two do.
pub fn low<R: Rows>(v: u64) -> u64
    ensures { result ≡ picked R.low 5 v }
{
    let mut x = 0;
    for p in (0..5).rev() {
        x ^= R::low_at(p * 64 + (v >> (6 * p)) % 64);
    }
    x
}

// What the six digits of `v` leave with five digits behind them, added to `y`.
pub fn high<R: Rows>(y: u64, v: u64) -> u64
    ensures { result ≡ bit_xor y (picked R.high 6 v) }
{
    let mut x = y;
    for p in (0..6).rev() {
        x ^= R::high_at(p * 64 + (v >> (6 * p)) % 64);
    }
    x
}
