// The check word of SUBSET-057, section 10: over two runs of bytes one after the other, at the widths of SL 4 and SL 2.
// Nothing is joined or copied.
//
// The register stands at the top of 64 bits, so that both widths go on in one way, up to eight bytes at a time. In each
// turn as many bits as come in are taken from the top of the register and added to the bytes; what the digits of that
// number leave is added to the rest of the register, which moves up.
#![tactic(auto)]

ghost use Rattle.std.specs.Prelude.{◌≡◌, ◌++◌, ◌-◌, ◌*◌, ◌/◌, ◌%◌, ◌^◌, ◌<◌, ℕ, [], MatchOption};
ghost use Rattle.checkword.specs.Generators.{generator48, generator32};
ghost use Rattle.checkword.specs.Word.{run, word};
ghost use Rattle.checkword.specs.Rows.{Test, test48, test32};
ghost use Rattle.checkword.specs.Turn.{Taken};

use digits::Rows;
use rows32::Rows32;
use rows48::Rows48;

// A width of the check word: its bits, which stand at the top of the register, its generator, and rows that fit both.
trait Width: Rows {
    const BITS: u32;

    ghost BITS: { ℕ };

    ghost generator: { ℕ };

    ghost test: { Test BITS generator (64 - BITS) Self.low Self.high };
}

impl Width for Rows48 {
    const BITS: u32 = 48;

    ghost BITS = { 48 };

    ghost generator = { generator48 };

    ghost test = { test48 };
}

impl Width for Rows32 {
    const BITS: u32 = 32;

    ghost BITS = { 32 };

    ghost generator = { generator32 };

    ghost test = { test32 };
}

// Takes the next eight, four or two bytes of a run, or its last one: the top of the register `x` with these bytes added
// to it, the rest of the register, moved up, and the bytes behind them.
fn taken(x: u64, bytes: &[u8]) -> Option<(u64, u64, &[u8])>
    ensures { MatchOption result (bytes.now ≡ []) (λ t. Taken x bytes.now t.0 t.1 t.2.now) }
{
    if let Some((eight, behind)) = bytes.split_first_chunk() {
        Some((x ^ u64::from_be_bytes(*eight), 0, behind))
    } else if let Some((four, behind)) = bytes.split_first_chunk() {
        // At SL 4 16 bits of the register are left.
        Some((
            (x >> 32) ^ u32::from_be_bytes(*four) as u64,
            x << 32,
            behind,
        ))
    } else if let Some((two, behind)) = bytes.split_first_chunk() {
        Some(((x >> 48) ^ u16::from_be_bytes(*two) as u64, x << 16, behind))
    } else if let Some((one, behind)) = bytes.split_first() {
        Some(((x >> 56) ^ *one as u64, x << 8, behind))
    } else {
        None
    }
}

// The register after a run of bytes.
fn run_on<W: Width>(register: u64, bytes: &[u8]) -> u64
    requires { register % 2 ^ (64 - W.BITS) ≡ 0 }
    ensures { result ≡ run W.BITS W.generator (register / 2 ^ (64 - W.BITS)) bytes.now * 2 ^ (64 - W.BITS) }
{
    let mut x = register;
    let mut left = bytes;
    while let Some((top, rest, behind)) = taken(x, left) {
        x = digits::high::<W>(rest, top >> 30) ^ digits::low::<W>(top % 0x4000_0000);
        left = behind;
    }
    x
}

// The check word of `first` and then `second`.
fn check_word<W: Width>(first: &[u8], second: &[u8]) -> u64
    ensures { (result ≡ word W.BITS W.generator (first.now ++ second.now)) × (result < 2 ^ W.BITS) }
{
    run_on::<W>(run_on::<W>(0, first), second) >> (64 - W::BITS)
}

// The check word at SL 4 of `first` and then `second`: 48 bits, so the two highest bytes are 0.
pub fn word48(first: &[u8], second: &[u8]) -> u64
    ensures { result ≡ word 48 generator48 (first.now ++ second.now) }
{
    check_word::<Rows48>(first, second)
}

// The check word at SL 2 of `first` and then `second`.
pub fn word32(first: &[u8], second: &[u8]) -> u32
    ensures { result ≡ word 32 generator32 (first.now ++ second.now) }
{
    check_word::<Rows32>(first, second) as u32
}
