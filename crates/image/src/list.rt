// The live entries one by one: by segment, chain order, slot.
ghost use Rattle.std.specs.Prelude.{◌≡◌, length};
ghost use Rattle.layout.specs.Frame.{Framed};
ghost use Rattle.entries.specs.Live.{live};
ghost use Rattle.search.specs.Search.{ChainTiers};
ghost use Rattle.image.specs.List.{pick, entry as list_entry};

use super::Stage;
use super::cursor::LiveCursor;
use entries::Live;
use layout::Shape;

// The n-th live entry, or as an error how many more it takes after them, as in `pick` of the specs.
pub fn nth(z: Shape, img: &[u8], n: usize) -> Result<Live, usize>
    requires { Framed z (length img.now) × ChainTiers z img.now }
    ensures { result ≡ pick (live z img.now) n }
{
    let c = LiveCursor::start(z, 0, n).settled(z, img);
    if c.left == 0 {
        return Err(c.skip);
    }
    Ok(c.entry(z, img))
}

// The n-th live entry, n from 0, where there are so many.
pub fn entry(block: &[u8], img: &[u8], n: usize) -> Result<Option<Live>, Stage>
    ensures { result ≡ list_entry block.now img.now n }
{
    let (z, _) = super::examine(block, img)?;
    // a `match`, so that the must-fail edit past_refused changes one arm
    match nth(z, img, n) {
        Ok(e) => Ok(Some(e)),
        Err(_) => Ok(None),
    }
}
