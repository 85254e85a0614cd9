// Unsigned LEB128 in the shortest form, for lengths of at most 65,535.
#![tactic(auto)]

ghost use Rattle.std.specs.Prelude.{◌≡◌, ◌+◌, ◌≤◌, ◌<◌, length};
ghost use Rattle.std.proofs.lemmas.List.Edits.{sets};
ghost use Rattle.leb128.specs.Leb128.{encode, decode};

// How many bytes n takes: one for each seven bits up to its highest. The lowest bit is set first, so that 0 has a highest bit too.
pub fn size(n: usize) -> usize
    ensures { result ≡ length (encode n) }
{
    (63 - (n | 1).leading_zeros() as usize) / 7 + 1
}

// The length at a place, with the place after it; nothing where none is accepted.
pub fn read(s: &[u8], at: usize) -> Option<(usize, usize)>
    ensures { result ≡ decode s.now at }
{
    let a = usize::from(*s.get(at)?);
    if a < 128 {
        return Some((a, at + 1));
    }
    let b = usize::from(*s.get(at + 1)?);
    if b == 0 {
        return None;
    }
    if b < 128 {
        return Some((a - 128 + b * 128, at + 2));
    }
    let c = usize::from(*s.get(at + 2)?);
    if c == 0 {
        return None;
    }
    if 3 < c {
        return None;
    }
    Some((a - 128 + (b - 128) * 128 + c * 16384, at + 3))
}

// Writes n at a place, and answers the place after it.
pub fn write(s: &mut [u8], at: usize, n: usize) -> usize
    requires { at + length (encode n) ≤ length s.old }
    ensures { (result ≡ at + length (encode n)) × (s.new ≡ sets s.old at (encode n)) }
{
    let mut rest = n;
    let mut next = at;
    // in reverse: a loop that counts up to the size is unrolled, which doubles its code
    for _ in (1..size(n)).rev() {
        s[next] = (128 + rest % 128) as u8;
        rest = rest / 128;
        next += 1;
    }
    s[next] = rest as u8;
    next + 1
}
