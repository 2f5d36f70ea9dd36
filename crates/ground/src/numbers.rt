// Bytes and numbers by their place in a run. A byte past the end reads 0, so that no caller has to know a length first.
ghost use Rattle.std.specs.Prelude.{◌≡◌, get_or};
ghost use Rattle.ground.specs.Numbers.{bytes_at};

// The byte at a place, or 0.
pub fn byte(t: &[u8], at: usize) -> u8
    ensures { result ≡ get_or t.now at 0 }
{
    t.get(at).copied().unwrap_or(0)
}

// The N bytes from a place on. `u32::from_le_bytes` of them is the number that stands there.
pub fn bytes_at<const N: usize>(t: &[u8], at: usize) -> [u8; N]
    ensures { result ≡ bytes_at N at t.now }
{
    std::array::from_fn(|i| byte(t, at.saturating_add(i)))
}
