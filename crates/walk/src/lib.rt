// The walk of a quick lookup: a search that tests what it meets, in an image of which the frame alone is known.
#![tactic(auto)]

ghost use Rattle.std.specs.Prelude.{◌≡◌};
ghost use Rattle.layout.specs.FramedTier.{FramedTier};
ghost use Rattle.search.specs.Asking.{Seeks};
ghost use Rattle.walk.specs.Walk.{at_slot as walk_at_slot, in_tier as walk_in_tier, walk as walk_walk};
ghost use Rattle.walk.specs.Telling.{Walkable, ReadsSay};

use entries::Entry;
use layout::{Header, Shape};
use probe::Cursor;

// The walk met something broken.
#[derive(Clone, Copy)]
pub struct Broken;

// Where the walk ends in one tier: at the key's slot, with its entry, or at an empty slot. Neither is an error.
#[derive(Clone, Copy)]
pub enum TierMet {
    Holds(usize, Entry),
    Empty(usize),
}

// Where it ends: at the key's tier and slot, with its entry, or at the empty slot of the last tier. Neither is an error.
#[derive(Clone, Copy)]
pub enum WalkEnd {
    Found(usize, usize, Entry),
    Absent(usize, usize),
}

// The entry at chunk c of tier t where it passes the tests: its lengths, their ranges, and where it ends. It is read here and not by
// `entries::read::stored`, which would be given a copy of the whole shape for each slot.
fn tested_entry(z: Shape, img: &[u8], t: usize, c: usize) -> Option<Entry>
    requires { FramedTier z img.now t }
    ensures { ReadsSay z img.now t c result }
{
    if z.settings.chunks <= c {
        return None;
    }
    let end = layout::chunk_at(z, t, z.settings.chunks);
    let bytes = &img[..end];
    let (k, at) = leb128::read(bytes, layout::chunk_at(z, t, c))?;
    if k < 1 {
        return None;
    }
    if entries::LONGEST_KEY < k {
        return None;
    }
    let (v, after) = leb128::read(bytes, at + k)?;
    if end < after + v {
        return None;
    }
    Some(Entry {
        keyAt: at,
        keyLength: k,
        valueAt: after,
        valueLength: v,
    })
}

// The key's entry at a full slot of tier t that holds v, or nothing where the slot is another key's. Where the lookup key is the key's the
// entry is tested, and then the whole keys are compared.
fn at_slot(
    z: Shape,
    img: &[u8],
    key: &[u8],
    lookup: u64,
    t: usize,
    v: u64,
) -> Result<Option<Entry>, Broken>
    requires { Seeks z img.now key.now lookup t }
    ensures { result ≡ walk_at_slot z img.now key.now t v }
{
    let st = z.settings;
    if entries::keys::slot_key(st, v) != lookup {
        return Ok(None);
    }
    let Some(e) = tested_entry(z, img, t, entries::keys::slot_chunk(st, v)) else {
        return Err(Broken);
    };
    if entries::read::same_key(img, e.keyAt, e.keyLength, key) {
        return Ok(Some(e));
    }
    Ok(None)
}

// The walk over the slots of tier t.
fn in_tier(z: Shape, img: &[u8], key: &[u8], lookup: u64, t: usize) -> Result<TierMet, Broken>
    requires { Seeks z img.now key.now lookup t }
    ensures { result ≡ walk_in_tier z img.now key.now t }
{
    let mut cursor = Cursor {
        slot: entries::keys::start(z.settings, lookup),
        slots: z.settings.slots,
    };
    for _ in 0..z.settings.slots {
        let v = layout::read::slot(z, img, t, cursor.slot);
        if v == 0 {
            return Ok(TierMet::Empty(cursor.slot));
        }
        if let Some(e) = at_slot(z, img, key, lookup, t, v)? {
            return Ok(TierMet::Holds(cursor.slot, e));
        }
        cursor = cursor.step();
    }
    Err(Broken)
}

// The walk for a key, whose hash is given, through the chain of its segment.
pub fn walk(z: Shape, img: &[u8], key: &[u8], h: u64) -> Result<WalkEnd, Broken>
    requires { Walkable z img.now key.now h }
    ensures { result ≡ walk_walk z img.now key.now }
{
    let lookup = entries::keys::lookup_of_hash(z.settings, h);
    let most = layout::tier_count(z);
    let mut t = entries::keys::segment_of_hash(z.settings, h) + 1;
    // A `while` and no `for`, so that the edit no_bound_on_the_tiers can take the bound away.
    let mut tiers = most;
    while 0 < tiers {
        let slot = match in_tier(z, img, key, lookup, t)? {
            TierMet::Holds(j, e) => return Ok(WalkEnd::Found(t, j, e)),
            TierMet::Empty(j) => j,
        };
        let next = layout::read::shared(z, img, t, Header::NextTier) as usize;
        if next == 0 {
            return Ok(WalkEnd::Absent(t, slot));
        }
        if next <= z.settings.segments {
            return Err(Broken);
        }
        if most < next {
            return Err(Broken);
        }
        t = next;
        tiers -= 1;
    }
    Err(Broken)
}
