// Numbers of a fixed width, the highest byte first.
ghost use Rattle.std.specs.Prelude.{◌≡◌, ◌+◌, ◌≤◌, length};
ghost use Rattle.codec.specs.Fixed.{big_endian, number_at};
ghost use Rattle.codec.specs.Splice.{splice};

// The number that the two bytes from `at` make.
pub fn read_be16(s: &[u8], at: usize) -> u16
    requires { at + 2 ≤ length s.now }
    ensures { result ≡ number_at s.now at 2 }
{
    u16::from_be_bytes([s[at], s[at + 1]])
}

// The number that the four bytes from `at` make.
pub fn read_be32(s: &[u8], at: usize) -> u32
    requires { at + 4 ≤ length s.now }
    ensures { result ≡ number_at s.now at 4 }
{
    u32::from_be_bytes([s[at], s[at + 1], s[at + 2], s[at + 3]])
}

// The number that the eight bytes from `at` make.
pub fn read_be64(s: &[u8], at: usize) -> u64
    requires { at + 8 ≤ length s.now }
    ensures { result ≡ number_at s.now at 8 }
{
    let high = read_be32(s, at);
    let low = read_be32(s, at + 4);
    high as u64 * 4294967296 + low as u64
}

// Writes the four bytes of x from `at`.
pub fn write_be32(out: &mut [u8], at: usize, x: u32)
    requires { at + 4 ≤ length out.old }
    ensures { out.new ≡ splice out.old at (big_endian 4 x) }
{
    out[at] = (x / 16777216 % 256) as u8;
    out[at + 1] = (x / 65536 % 256) as u8;
    out[at + 2] = (x / 256 % 256) as u8;
    out[at + 3] = (x % 256) as u8;
}

// Writes the eight bytes of x from `at`.
pub fn write_be64(out: &mut [u8], at: usize, x: u64)
    requires { at + 8 ≤ length out.old }
    ensures { out.new ≡ splice out.old at (big_endian 8 x) }
{
    write_be32(out, at, (x / 4294967296) as u32);
    write_be32(out, at + 4, (x % 4294967296) as u32);
}
