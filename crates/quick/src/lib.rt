// The quick lookup: it tests settings, frame and key, and then only what it meets on the way to the key.
#![tactic(auto)]

ghost use Rattle.std.specs.Prelude.{◌≡◌};
ghost use Rattle.quick.specs.Quick.{opened, from_walk as quick_from_walk, quick_lookup as quick_quick_lookup};
ghost use Rattle.quick.specs.Telling.{ParsesAlike, HashOf};

use chronicle_map::{Located, RecordPlace, SearchEnd};
use image::Stage;
use layout::Shape;
use walk::{Broken, WalkEnd};

// How much of a block is looked at: one byte more than the longest has, which tells that it is too long.
fn looked_at(block: &[u8]) -> usize
    ensures { ParsesAlike block.now result }
{
    let most = settings::block_size(settings::MOST_FIELDS) + 1;
    if block.len() < most {
        return block.len();
    }
    most
}

// What settings and frame give: the shape of the image, or a refusal. A part of the block is handed on and not the block: that would copy
// its address and length at once, and such a copy waits until the two are stored, which made a quick lookup a third slower.
pub fn open_image(block: &[u8], img: &[u8]) -> Result<Shape, Stage>
    ensures { result ≡ opened block.now img.now }
{
    let n = looked_at(block);
    let st = settings::parse(&block[..n])?;
    layout::frame_of(st, img).ok_or(Stage::Frame)
}

// The walk's end as a lookup's answer.
fn from_walk(end: Result<WalkEnd, Broken>) -> Result<Located, Stage>
    ensures { result ≡ quick_from_walk end }
{
    match end {
        Ok(WalkEnd::Found(t, j, e)) => Ok(Located::Found(RecordPlace {
            offset: e.valueAt,
            length: e.valueLength,
            tier: t,
            slot: j,
        })),
        Ok(WalkEnd::Absent(t, j)) => Ok(Located::Absent(SearchEnd { tier: t, slot: j })),
        Err(Broken) => Err(Stage::Walk),
    }
}

// The hash of a key that is not too long. It needs neither settings nor frame, so it is begun before they are tested, and the processor
// works on both at once.
fn hash(key: &[u8]) -> u64
    ensures { HashOf key.now result }
{
    if entries::LONGEST_KEY < key.len() {
        return 0;
    }
    xxh64::xxh64(key)
}

// Where the record under a key stands, or where the walk for the key ended, without a check of the whole image.
pub fn quick_lookup(block: &[u8], img: &[u8], key: &[u8]) -> Result<Located, Stage>
    ensures { result ≡ quick_quick_lookup block.now img.now key.now }
{
    let h = hash(key);
    let z = open_image(block, img)?;
    if !entries::key_fits(z.settings, key) {
        return Err(Stage::Key);
    }
    from_walk(walk::walk(z, img, key, h))
}
