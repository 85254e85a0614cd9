// Numbers and bits in slices of bytes.
#![tactic(auto)]

ghost use Rattle.std.specs.Prelude.{◌≡◌, ◌+◌, ◌*◌, ◌^◌, ◌<◌, ◌≤◌, length};
ghost use Rattle.words.specs.Numbers.{le, be, put_le};
ghost use Rattle.words.specs.Bits.{bit as bits_bit, put_bit, put_bits as bits_put_bits, ones as bits_ones, BitRange};

// The number of n bytes at an offset, little-endian. Inlined, so that a width of 4 or 8 compiles to one load.
#[inline(always)]
pub fn read_le(s: &[u8], at: usize, n: usize) -> u64
    requires { (at + n ≤ length s.now) × (n ≤ 8) }
    ensures { (result ≡ le s.now at n) × (result < 256 ^ n) }
{
    if n == 4 {
        return read_le4(s, at);
    }
    let mut bytes = [0; 8];
    bytes[..n].copy_from_slice(&s[at..at + n]);
    u64::from_le_bytes(bytes)
}

// The same for 4 bytes, by themselves: copied into eight they would be stored, and loaded again at another width.
pub fn read_le4(s: &[u8], at: usize) -> u64
    requires { at + 4 ≤ length s.now }
    ensures { (result ≡ le s.now at 4) × (result < 256 ^ 4) }
{
    u64::from(u32::from_le_bytes([s[at], s[at + 1], s[at + 2], s[at + 3]]))
}

// The same for 8 bytes. A name of its own: read_le with an 8 at each of the many calls is no plainer.
pub fn read_le8(s: &[u8], at: usize) -> u64
    requires { at + 8 ≤ length s.now }
    ensures { result ≡ le s.now at 8 }
{
    read_le(s, at, 8)
}

// The number of n bytes at an offset, big-endian. A loop: a copy into eight bytes is stored and then loaded at another width.
pub fn read_be(s: &[u8], at: usize, n: usize) -> u64
    requires { (at + n ≤ length s.now) × (n ≤ 8) }
    ensures { (result ≡ be s.now at n) × (result < 256 ^ n) }
{
    let mut sum: u64 = 0;
    for k in 0..n {
        sum = sum * 256 + u64::from(s[at + k]);
    }
    sum
}

// Writes the n lowest bytes of v at an offset, little-endian. A loop, since n may be above the eight of to_le_bytes.
pub fn write_le(s: &mut [u8], at: usize, n: usize, v: u64)
    requires { at + n ≤ length s.old }
    ensures { s.new ≡ put_le s.old at n v }
{
    let mut rest: u64 = v;
    for k in 0..n {
        s[at + k] = (rest % 256) as u8;
        rest = rest / 256;
    }
}

// Bit i of the bits that start at an offset.
pub fn bit(s: &[u8], at: usize, i: usize) -> u8
    requires { 8 * at + i < 8 * length s.now }
    ensures { (result ≡ bits_bit s.now at i) × (result < 2) }
{
    (s[at + i / 8] >> (i % 8)) & 1
}

// Makes bit i b, which is 0 or 1.
pub fn put_bit(s: &mut [u8], at: usize, i: usize, b: u8)
    requires { (8 * at + i < 8 * length s.old) × (b < 2) }
    ensures { s.new ≡ put_bit s.old at i b }
{
    let j = at + i / 8;
    s[j] = (s[j] & !(1u8 << (i % 8))) | (b << (i % 8));
}

// Makes the n bits from bit i on b.
pub fn put_bits(s: &mut [u8], at: usize, i: usize, n: usize, b: u8)
    requires { BitRange s.old at i n × (b < 2) }
    ensures { s.new ≡ bits_put_bits s.old at i n b }
{
    for done in 0..n {
        put_bit(s, at, i + done, b);
    }
}

// How many of the n bits from bit i on are 1.
pub fn ones(s: &[u8], at: usize, i: usize, n: usize) -> usize
    requires { BitRange s.now at i n }
    ensures { result ≡ bits_ones s.now at i n }
{
    let mut sum: usize = 0;
    for k in 0..n {
        sum += usize::from(bit(s, at, i + k));
    }
    sum
}
