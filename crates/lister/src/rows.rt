// The lines of the live entries.
ghost use Rattle.std.specs.Prelude.{length};
ghost use Rattle.layout.specs.Frame.{Framed};
ghost use Rattle.search.specs.Search.{ChainTiers};
ghost use Rattle.text.specs.Line.{Reads};
ghost use Rattle.lister.specs.Printed.{row_text};

use crate::print;
use entries::Live;
use image::cursor::LiveCursor;
use layout::Shape;
use std::io;
use text::Line;

fn row_line(e: Live) -> Line
    ensures { Reads (row_text e) result }
{
    let numbers = image::numbers::row_numbers(e);
    text::numbers_line(&numbers)
}

// A line for each live entry, in one walk.
pub fn all(rt: &impl Print, z: Shape, img: &[u8]) -> io::Result<()>
    requires { Framed z (length img.now) × ChainTiers z img.now }
{
    let mut c = LiveCursor::first(z);
    while let Some((e, after)) = c.step(z, img) {
        print::line(rt, row_line(e))?;
        c = after;
    }
    Ok(())
}
