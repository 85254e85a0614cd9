// XXH64: published vectors, and every length to 300.
use std::io;

// The texts whose hashes are published, and their names.
const PUBLISHED: [(&str, &str); 9] = [
    ("empty", ""),
    ("a", "a"),
    ("as", "as"),
    ("asd", "asd"),
    ("asdf", "asdf"),
    ("abc", "abc"),
    ("xxhash", "xxhash"),
    ("nobody", "Nobody inspects the spammish repetition"),
    (
        "ishmael",
        "Call me Ishmael. Some years ago--never mind how long precisely-",
    ),
];

// The test bytes of xxHash's own self-test.
fn sanity() -> [u8; 222] {
    let mut s = [0; 222];
    let mut g: u64 = 2654435761;
    for b in &mut s {
        *b = (g >> 56) as u8;
        g = xxh64::mul(g, 11400714785074694797);
    }
    s
}

// The bytes 0, 1, 2 and so on, modulo 251.
fn count_up() -> [u8; 300] {
    let mut s = [0; 300];
    for (i, b) in s.iter_mut().enumerate() {
        *b = (i % 251) as u8;
    }
    s
}

// The length of s, and its hash.
fn line(rt: &impl Print, s: &[u8]) -> io::Result<()> {
    print!(rt; "{} {:016x}\n", s.len(), xxh64::xxh64(s))
}

fn named(rt: &impl Print, name: &str, s: &[u8]) -> io::Result<()> {
    print!(rt; "xxh64 {name} ")?;
    line(rt, s)
}

pub fn published(rt: &impl Print) -> io::Result<()> {
    for (name, text) in PUBLISHED {
        named(rt, name, text.as_bytes())?;
    }
    let s = sanity();
    for n in [1, 4, 14, 222] {
        named(rt, "sanity", &s[..n])?;
    }
    Ok(())
}

// A line for each length.
pub fn counted(rt: &impl Print) -> io::Result<()> {
    let s = count_up();
    for n in 0..=s.len() {
        line(rt, &s[..n])?;
    }
    Ok(())
}
