// The rules of slots and entries, for one slot: its entry by itself, that it is reached, and, where asked, that its key is found in it.
ghost use Rattle.std.specs.Prelude.{◌≡◌, ◌≤◌, ◌<◌};
ghost use Rattle.lists.specs.Decide.{Decides};
ghost use Rattle.layout.specs.FramedTier.{FramedSlot};
ghost use Rattle.entries.specs.Stored.{key_of};
ghost use Rattle.search.specs.Search.{hits, seek_in};
ghost use Rattle.search.specs.Rules.{Hashed, EntryFits, keyAt};
ghost use Rattle.search.specs.Reach.{Alone};
ghost use Rattle.search.specs.Landing.{LandsAt, SlotHolds, SlotSays};
ghost use Rattle.search.specs.Asking.{HasKey, KeyOfSlot, ComparedIn, FittingSlot, RunSlot};

use entries::Entry;
use layout::Shape;
use probe::Cursor;

const STEPS_OF_A_KEY: usize = 16;

// Whether a stored key has the hash parts that its slot and its segment say.
fn hash_agrees(z: Shape, img: &[u8], s: usize, v: u64, e: Entry) -> bool
    requires { HasKey z img.now e }
    ensures { Decides result (Hashed z.settings s v (key_of img.now e)) }
{
    let st = z.settings;
    let from = e.keyAt;
    let to = e.keyAt + e.keyLength;
    let h = xxh64::xxh64(&img[from..to]);
    if entries::keys::segment_of_hash(st, h) != s {
        return false;
    }
    if entries::keys::lookup_of_hash(st, h) != entries::keys::slot_key(st, v) {
        return false;
    }
    true
}

// The chunks that the entry of the full slot j, of a tier in segment s's chain, covers, first and how many; nothing where it does not fit.
fn entry_fits(z: Shape, img: &[u8], s: usize, t: usize, j: usize) -> Option<(usize, usize)>
    requires { FramedSlot z img.now t j }
    ensures { SlotSays z img.now (EntryFits z img.now s t j) t j result }
{
    let st = z.settings;
    let v = layout::read::slot(z, img, t, j);
    if entries::keys::slot_rest(st, v) != 0 {
        return None;
    }
    let c = entries::keys::slot_chunk(st, v);
    let e = entries::read::stored(z, img, t, c)?;
    let from = e.keyAt;
    let to = e.keyAt + e.keyLength;
    if !entries::key_fits(st, &img[from..to]) {
        return None;
    }
    let n = entries::value_fits(st, e.keyLength, e.valueLength)?;
    if st.chunks < c + n {
        return None;
    }
    if !hash_agrees(z, img, s, v, e) {
        return None;
    }
    Some((c, n))
}

// Whether a full slot of tier u that holds v stands for the key of slot j of tier t.
pub fn same_hit(
    z: Shape,
    img: &[u8],
    s: usize,
    t: usize,
    j: usize,
    lookup: u64,
    u: usize,
    v: u64,
) -> bool
    requires { ComparedIn z img.now s t j lookup u }
    ensures { result ≡ hits z img.now (keyAt z img.now t j) u v }
{
    let e = entries::read::entry_at(z, img, t, j);
    let from = e.keyAt;
    let to = e.keyAt + e.keyLength;
    super::hits(z, img, &img[from..to], lookup, u, v)
}

// Whether the search for the key of the full slot j, in its tier t, ends there. The slot itself is not compared with its own key.
fn ends_at(z: Shape, img: &[u8], s: usize, t: usize, j: usize, lookup: u64) -> bool
    requires { KeyOfSlot z img.now s t j lookup }
    ensures { Decides result (seek_in z img.now (keyAt z img.now t j) t ≡ j) }
{
    let mut cursor = Cursor {
        slot: entries::keys::start(z.settings, lookup),
        slots: z.settings.slots,
    };
    while cursor.slot != j {
        let v = layout::read::slot(z, img, t, cursor.slot);
        if v == 0 {
            return false;
        }
        if entries::keys::slot_key(z.settings, v) == lookup {
            if same_hit(z, img, s, t, j, lookup, t, v) {
                return false;
            }
        }
        cursor = cursor.step();
    }
    true
}

// Of so many steps those that are left after a walk from slot j's start slot to slot j; none where they are too few, or where a slot on
// the way stands for the same key. A comparison of whole keys counts as several steps.
pub fn steps_left(z: Shape, img: &[u8], s: usize, t: usize, j: usize, steps: usize) -> usize
    requires { FittingSlot z img.now s t j }
    ensures { (result ≤ steps) × (0 < result → Alone z img.now t j) }
{
    // the lookup key is the key's: the slot fits
    let lookup = entries::keys::slot_key(z.settings, layout::read::slot(z, img, t, j));
    let mut cursor = Cursor {
        slot: entries::keys::start(z.settings, lookup),
        slots: z.settings.slots,
    };
    let mut left = steps;
    while cursor.slot != j {
        if left == 0 {
            return 0;
        }
        let other = layout::read::slot(z, img, t, cursor.slot);
        if entries::keys::slot_key(z.settings, other) == lookup {
            if same_hit(z, img, s, t, j, lookup, t, other) {
                return 0;
            }
            if left <= STEPS_OF_A_KEY {
                return 0;
            }
            left -= STEPS_OF_A_KEY;
        }
        cursor = cursor.step();
        left -= 1;
    }
    left
}

// Whether the search for the key of the full slot j of tier t, whose entry fits, ends at that slot.
pub fn lands(z: Shape, img: &[u8], s: usize, t: usize, j: usize) -> bool
    requires { FittingSlot z img.now s t j }
    ensures { Decides result (LandsAt z img.now t j) }
{
    // the lookup key is the key's: the slot fits
    let lookup = entries::keys::slot_key(z.settings, layout::read::slot(z, img, t, j));
    if !ends_at(z, img, s, t, j, lookup) {
        return false;
    }
    if t == s + 1 {
        return true;
    }
    let e = entries::read::entry_at(z, img, t, j);
    let from = e.keyAt;
    let to = e.keyAt + e.keyLength;
    super::comes_to(z, img, &img[from..to], lookup, s, t)
}

// The same where the full slot j meets the rules of slots and entries apart from the others' keys: its entry fits, and it is reached, since
// it is the last of `run` full slots without a gap.
pub fn slot_fits(
    z: Shape,
    img: &[u8],
    s: usize,
    t: usize,
    j: usize,
    run: usize,
) -> Option<(usize, usize)>
    requires { RunSlot z img.now s t j run }
    ensures { SlotSays z img.now (SlotHolds z img.now s t j) t j result }
{
    let range = entry_fits(z, img, s, t, j)?;
    if run <= super::reach::displaced(z, img, t, j) {
        return None;
    }
    Some(range)
}
