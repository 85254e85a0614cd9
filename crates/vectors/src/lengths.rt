// LEB128: numbers written and read back, and forms that are read or refused.
use std::{fmt, io};

// Numbers, and how many bytes each takes: above 65,535 none is read.
const NUMBERS: [(usize, usize); 36] = [
    (0, 1),
    (1, 1),
    (127, 1),
    (128, 2),
    (129, 2),
    (255, 2),
    (256, 2),
    (16383, 2),
    (16384, 3),
    (16385, 3),
    (32768, 3),
    (65534, 3),
    (65535, 3),
    (65536, 3),
    (2097151, 3),
    (2097152, 4),
    (2097153, 4),
    (268435455, 4),
    (268435456, 5),
    (268435457, 5),
    (34359738367, 5),
    (34359738368, 6),
    (34359738369, 6),
    (4398046511103, 6),
    (4398046511104, 7),
    (4398046511105, 7),
    (562949953421311, 7),
    (562949953421312, 8),
    (562949953421313, 8),
    (72057594037927935, 8),
    (72057594037927936, 9),
    (72057594037927937, 9),
    (9223372036854775807, 9),
    (9223372036854775808, 10),
    (9223372036854775809, 10),
    (18446744073709551615, 10),
];

const LONGER_THAN_NEED_BE: [&[u8]; 7] = [
    &[128, 0],
    &[129, 0],
    &[255, 0],
    &[128, 128, 0],
    &[255, 128, 0],
    &[255, 255, 0],
    &[128, 128, 128, 0],
];

const TOO_LARGE: [&[u8]; 6] = [
    &[255, 255, 255, 3],
    &[255, 255, 255, 127],
    &[255, 255, 255, 255, 15],
    &[128, 128, 4],
    &[128, 128, 127],
    &[255, 255, 4],
];

// The last byte, which would end the number, is out of reach.
const ENDED_EARLY: [&[u8]; 4] = [&[127], &[128, 1], &[128, 128, 1], &[255, 255, 3]];

const ACCEPTED: [&[u8]; 10] = [
    &[0],
    &[127],
    &[128, 1],
    &[255, 1],
    &[255, 127],
    &[128, 128, 1],
    &[255, 255, 3],
    &[0, 128],
    &[128, 1, 255],
    &[255, 255, 3, 128],
];

// Bytes in two hexadecimal digits each; none are a dash.
#[derive(Drop)]
struct Hex<'a>(&'a [u8]);

impl fmt::Display for Hex<'_> {
    fn fmt<W: fmt::Write>(&self, f: &mut fmt::Formatter<W>) -> fmt::Result {
        if self.0.is_empty() {
            return f.write_str("-");
        }
        for b in self.0 {
            write!(f, "{b:02x}")?;
        }
        Ok(())
    }
}

// The number that all of s is read as.
fn read_back(rt: &impl Print, s: &[u8]) -> io::Result<()> {
    match leb128::read(s, 0) {
        Some((n, next)) => {
            if next == s.len() {
                print!(rt; "{n}")
            } else {
                print!(rt; "not all read")
            }
        }
        None => print!(rt; "refused"),
    }
}

// Writes n into s, and prints what was written and what is read from it.
fn written(rt: &impl Print, s: &mut [u8], n: usize) -> io::Result<()> {
    if leb128::size(n) == s.len() {
        let next = leb128::write(s, 0, n);
        print!(rt; "{} ", Hex(&s[..next]))?;
        read_back(rt, s)
    } else {
        print!(rt; "another size")
    }
}

// Each number, the bytes that it takes, and the number read back.
pub fn numbers(rt: &impl Print) -> io::Result<()> {
    for (n, size) in NUMBERS {
        print!(rt; "leb128 {n} ")?;
        let mut s = [0; 10];
        if size <= 10 {
            written(rt, &mut s[..size], n)?;
        }
        print!(rt; "\n")?;
    }
    Ok(())
}

// What is read at the front of s.
fn form(rt: &impl Print, s: &[u8]) -> io::Result<()> {
    match leb128::read(s, 0) {
        Some((n, next)) => print!(rt; "leb128 read {} {n} {next}\n", Hex(s)),
        None => print!(rt; "leb128 refused {}\n", Hex(s)),
    }
}

pub fn forms(rt: &impl Print) -> io::Result<()> {
    for s in LONGER_THAN_NEED_BE {
        form(rt, s)?;
    }
    for s in TOO_LARGE {
        form(rt, s)?;
    }
    for s in ENDED_EARLY {
        if let Some((_, front)) = s.split_last() {
            form(rt, front)?;
        }
    }
    for s in ACCEPTED {
        form(rt, s)?;
    }
    Ok(())
}
