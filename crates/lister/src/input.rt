// The input: the settings block, the image's length in four bytes, and the image.
ghost use Rattle.std.specs.Prelude.{◌≡◌, ◌≤◌, length, IfOk, OnErr};
ghost use Rattle.lister.specs.Input.{missing as input_missing, Ends, reading_length as input_reading_length, reading_block as input_reading_block, reading as input_reading, longest, HasRead};

use image::Stage;
use std::io;
use std::io::Read;

// The bytes of the image's length, which stands between the block and the image.
pub const LENGTH_SIZE: usize = 4;

// The longest image that is read.
const LIMIT: usize = 65536;

// The longest input that is read.
pub const LONGEST: usize = settings::HEAD_SIZE + 4 * settings::MOST_FIELDS + LENGTH_SIZE + LIMIT;

// Read on up to so many bytes in all; or a block that ends there is there, and an image of so many bytes.
#[derive(Clone, Copy)]
pub enum Input {
    More(usize),
    Whole(usize, usize),
}

// Fewer bytes are there than the n that are asked for.
fn missing(stage: Stage, n: usize, ended: bool) -> Result<Input, Stage>
    ensures { result ≡ input_missing stage n ended }
{
    if ended {
        Err(stage)
    } else {
        Ok(Input::More(n))
    }
}

// What to do after these bytes, which begin with a block that is accepted.
#[tactic(auto, using(crate::proofs::Reading::length_steps))]
fn reading_length(end: usize, at: usize, read: &[u8], ended: bool) -> Result<Input, Stage>
    requires { Ends end at }
    ensures { result ≡ input_reading_length end read.now ended }
{
    if read.len() < at {
        return missing(Stage::Frame, at, ended);
    }
    let n = words::read_be(read, end, LENGTH_SIZE) as usize;
    if LIMIT < n {
        return Err(Stage::Frame);
    }
    if read.len() < at + n {
        return missing(Stage::Frame, at + n, ended);
    }
    Ok(Input::Whole(end, n))
}

// What to do after these bytes, which begin with the head of a block that ends there.
#[tactic(auto, using(crate::proofs::Reading::block_steps))]
fn reading_block(end: usize, at: usize, read: &[u8], ended: bool) -> Result<Input, Stage>
    requires { Ends end at }
    ensures { result ≡ input_reading_block end read.now ended }
{
    if read.len() < end {
        return missing(Stage::Block, end, ended);
    }
    settings::parse(&read[..end])?;
    reading_length(end, at, read, ended)
}

// What to do after these bytes of the input, which are all where it has ended.
pub fn reading(read: &[u8], ended: bool) -> Result<Input, Stage>
    ensures { result ≡ input_reading read.now ended }
{
    if read.len() < settings::HEAD_SIZE {
        return missing(Stage::Block, settings::HEAD_SIZE, ended);
    }
    let Some(fields) = settings::known_fields(read[2]) else {
        return Err(Stage::Block);
    };
    let end = settings::block_size(fields);
    reading_block(end, end + LENGTH_SIZE, read, ended)
}

// Reads until buf is full, the input ends or a read fails, and returns how many bytes it put at the start of buf.
fn read_full(from: &mut impl Read, buf: &mut [u8]) -> io::Result<usize>
    ensures { IfOk result (λ n. n ≤ length buf.new) }
{
    let mut done = 0;
    while done < buf.len() {
        let n = from.read(&mut buf[done..])?;
        if n == 0 {
            break;
        }
        done += n;
    }
    Ok(done)
}

// Reads as far as `reading` asks, and no further. A read that fails ends it, with that read's error.
pub fn read(from: &mut impl Read, buf: &mut [u8]) -> io::Result<Result<Input, Stage>>
    requires { length buf.old ≡ longest }
    ensures read { IfOk result (λ r. HasRead buf.new r) }
    ensures failed { OnErr result (length buf.new ≡ length buf.old) }
{
    let mut got = 0;
    let mut ended = false;
    loop {
        match reading(&buf[..got], ended) {
            Ok(Input::Whole(end, n)) => return Ok(Ok(Input::Whole(end, n))),
            Err(stage) => return Ok(Err(stage)),
            Ok(Input::More(n)) => {
                got += read_full(from, &mut buf[got..n])?;
                ended = got < n;
            }
        }
    }
}
