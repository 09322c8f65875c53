// Bytes that are put into a lent buffer.
ghost use Rattle.std.specs.Prelude.{◌≡◌, ◌+◌, ◌≤◌, length};
ghost use Rattle.codec.specs.Splice.{splice};

// Puts the bytes of s into a buffer, from `at` on, and answers the place after them.
pub fn put(out: &mut [u8], at: usize, s: &[u8]) -> usize
    requires { at + length s.now ≤ length out.old }
    ensures { (result ≡ at + length s.now) × (out.new ≡ splice out.old at s.now) }
{
    // The library's copy takes more time, since most texts are short.
    for (k, byte) in s.iter().enumerate() {
        out[at + k] = *byte;
    }
    at + s.len()
}
