// Numbers of a fixed width, the lowest byte first.
ghost use Rattle.std.specs.Prelude.{◌≡◌, ◌+◌, ◌≤◌, length};
ghost use Rattle.codec.specs.Little.{little_endian, little_at};
ghost use Rattle.codec.specs.Splice.{splice};

// The number that the four bytes from `at` make.
fn read_le32(s: &[u8], at: usize) -> u32
    requires { at + 4 ≤ length s.now }
    ensures { result ≡ little_at s.now at 4 }
{
    u32::from_le_bytes([s[at], s[at + 1], s[at + 2], s[at + 3]])
}

// The number that the eight bytes from `at` make.
pub fn read_le64(s: &[u8], at: usize) -> u64
    requires { at + 8 ≤ length s.now }
    ensures { result ≡ little_at s.now at 8 }
{
    let low = read_le32(s, at);
    let high = read_le32(s, at + 4);
    low as u64 + high as u64 * 4294967296
}

// Writes the four bytes of x from `at`.
fn write_le32(out: &mut [u8], at: usize, x: u32)
    requires { at + 4 ≤ length out.old }
    ensures { out.new ≡ splice out.old at (little_endian 4 x) }
{
    out[at] = (x % 256) as u8;
    out[at + 1] = (x / 256 % 256) as u8;
    out[at + 2] = (x / 65536 % 256) as u8;
    out[at + 3] = (x / 16777216 % 256) as u8;
}

// Writes the eight bytes of x from `at`.
pub fn write_le64(out: &mut [u8], at: usize, x: u64)
    requires { at + 8 ≤ length out.old }
    ensures { out.new ≡ splice out.old at (little_endian 8 x) }
{
    write_le32(out, at, (x % 4294967296) as u32);
    write_le32(out, at + 4, (x / 4294967296) as u32);
}
