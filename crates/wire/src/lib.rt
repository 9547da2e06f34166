// Big-endian fields of any width in a byte slice, and a part put in place of as many bytes. A place stands beside the bytes here and in the crates above, since an area
// is one lent slice (C lends it), and a promise says what every byte of it is.
#![tactic(auto)]

ghost use Rattle.std.specs.Prelude.{◌≡◌, ◌+◌, ◌≤◌, length};
ghost use Rattle.wire.specs.Field.{field_at, field_put};
ghost use Rattle.wire.specs.Part.{splice};

// The number in the `width` bytes from `at` on.
pub fn get(s: &[u8], at: usize, width: usize) -> u64
    requires { (width ≤ 8) × (at + width ≤ length s.now) }
    ensures { result ≡ field_at s.now at width }
{
    let mut n: u64 = 0;
    for byte in &s[at..at + width] {
        n = n * 256 + u64::from(*byte);
    }
    n
}

// The word at `at`.
pub fn word_at(s: &[u8], at: usize) -> u32
    requires { at + 4 ≤ length s.now }
    ensures { result ≡ field_at s.now at 4 }
{
    get(s, at, 4) as u32
}

// Puts the lowest `width` bytes of `number` at `at`.
pub fn put(s: &mut [u8], at: usize, width: usize, number: u64)
    requires { at + width ≤ length s.old }
    ensures { s.new ≡ field_put s.old at width number }
{
    let mut n = number;
    for k in (0..width).rev() {
        s[at + k] = (n % 256) as u8;
        n = n / 256;
    }
}

// Puts `part` at `at`, in place of as many bytes.
pub fn put_part(s: &mut [u8], at: usize, part: &[u8])
    requires { at + length part.now ≤ length s.old }
    ensures { s.new ≡ splice s.old at part.now }
{
    s[at..at + part.len()].copy_from_slice(part);
}
