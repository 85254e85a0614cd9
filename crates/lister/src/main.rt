// Lists the live entries of an image. Standard input has the settings block, the image's length and
// the image; what comes later is not read. Nothing is printed before the check of all three is done.
#![tactic(auto)]

mod input;
mod print;
mod rows;

ghost use Rattle.std.specs.Prelude.{◌≤◌, length};
ghost use Rattle.lister.specs.Input.{image_at};

use input::{Input, LENGTH_SIZE, LONGEST};
use std::io;

fn main(rt: HostRuntime) -> io::Result<()> {
    let mut buf = [0u8; LONGEST];
    match input::read(&mut rt.stdin(), &mut buf)? {
        Ok(Input::Whole(end, n)) => list(&rt, &buf[..end + LENGTH_SIZE + n], end),
        Err(stage) => print::refusal(&rt, stage),
        // not an answer of read, which reads on
        Ok(Input::More(_)) => Ok(()),
    }
}

// Lists the image of a whole input, whose block ends there.
fn list(rt: &impl Print, input: &[u8], end: usize) -> io::Result<()>
    requires { image_at end ≤ length input.now }
{
    let at = end + LENGTH_SIZE;
    let img = &input[at..];
    match image::examine(&input[..end], img) {
        Err(stage) => print::refusal(rt, stage),
        Ok((z, counts)) => {
            print::heading(rt)?;
            rows::all(rt, z, img)?;
            print::totals(rt, counts)
        }
    }
}
