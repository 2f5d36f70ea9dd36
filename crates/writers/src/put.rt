// Writing into a lent buffer: what is written, and everything else as it was.
ghost use Rattle.std.specs.Prelude.{◌≡◌, ◌+◌, ◌<◌, ◌≤◌, length, take};
ghost use Rattle.checkword.specs.Bytes.{bytes_of};
ghost use Rattle.telegram.specs.Levels.{word_length};
ghost use Rattle.telegram.specs.Telegrams.{check_word};
ghost use Rattle.telegram.specs.Over.{over};

use telegram::word_of;

// Copies src into out from index at on. `copy_from_slice` would call `memmove`, and no call may leave the archive.
#[tactic(auto, using(telegram::proofs::Over::over_none, telegram::proofs::Over::over_next))]
pub(crate) fn copy_at(out: &mut [u8], at: usize, src: &[u8])
    requires { at + length src.now ≤ length out.old }
    ensures { out.new ≡ over out.old at src.now }
{
    for (i, byte) in src.iter().enumerate() {
        out[at + i] = *byte;
    }
}

// Writes behind the first n bytes of out the level's check word of the implicit bytes and those n bytes.
pub(crate) fn put_word(out: &mut [u8], n: usize, level: u32, implicit: &[u8; 8])
    requires { n + word_length level ≤ length out.old }
    ensures { out.new ≡ over out.old n (bytes_of (word_length level) (check_word level implicit.now (take n out.old))) }
{
    // Highest byte first. A slice whose length is known only at run time would be copied by a call of `memcpy`.
    let word = word_of(level, implicit, &out[..n]).to_be_bytes();
    if level == 4 {
        copy_at(out, n, &word[2..]);
    } else {
        copy_at(out, n, &word[4..]);
    }
}
