// The number that a check word's bytes write.
ghost use Rattle.std.specs.Prelude.{◌≡◌, ◌≤◌, length};
ghost use Rattle.checkword.specs.Bytes.{number};

// The number of a run of up to six bytes, highest first.
pub(crate) fn number_of(bytes: &[u8]) -> u64
    requires { length bytes.now ≤ 6 }
    ensures { result ≡ number bytes.now }
{
    let mut x: u64 = 0;
    for &next in bytes {
        x = x * 256 + next as u64;
    }
    x
}
