// The table of a pass: references to slots, found by their keys. The number t * slots + j refers to slot j of tier t and is never 0.
ghost use Rattle.std.specs.Prelude.{◌≡◌, ◌<◌, length};
ghost use Rattle.settings.specs.Rules.{PowerOfTwo};
ghost use Rattle.search.specs.Rules.{keyAt};
ghost use Rattle.once.specs.Sharing.{number_of, place_for};
ghost use Rattle.once.specs.Refs.{meant, seek_ref};
ghost use Rattle.once.specs.Asking.{HoldsKey, CanCompare, CanSeek};

use super::Sharing;
use layout::Shape;
use probe::Cursor;

// The number of the key of slot j of tier t: its lookup key, or more of its hash.
pub fn number_at(z: Shape, img: &[u8], by: Sharing, s: usize, t: usize, j: usize, v: u64) -> u64
    requires { HoldsKey z img.now s t j v }
    ensures { result ≡ number_of by z.settings (keyAt z img.now t j) }
{
    if !by.byHash {
        return entries::keys::slot_key(z.settings, v);
    }
    let key = entries::read::key_part(z, img, t, entries::keys::slot_chunk(z.settings, v));
    let from = key.at;
    let to = key.at + key.length;
    // the lowest bits say the segment, which all keys of a chain share
    xxh64::xxh64(&img[from..to]) / 256
}

// The place in a table of n at which the search for a number starts.
fn place_of(bits: usize, number: u64, n: usize) -> usize
    requires { (bits < 64) × PowerOfTwo n }
    ensures { (result ≡ place_for bits n number) × (result < n) }
{
    entries::keys::remainder(number >> bits, n)
}

// Whether the slot that w refers to stands for the key of slot j of tier t: never by the lookup key alone.
fn refers_to_key(z: Shape, img: &[u8], s: usize, t: usize, j: usize, w: usize) -> bool
    requires { CanCompare z img.now s t j w }
    ensures { result ≡ meant z img.now (t, j) w }
{
    let u = w / z.settings.slots;
    let k = w % z.settings.slots;
    let lookup = entries::keys::slot_key(z.settings, layout::read::slot(z, img, t, j));
    let v = layout::read::slot(z, img, u, k);
    search::rules::same_hit(z, img, s, t, j, lookup, u, v)
}

// Where the search for the key of slot j of tier t ends: at a reference to a slot with the same key, or at an empty place.
pub fn seek(z: Shape, img: &[u8], by: Sharing, s: usize, t: usize, j: usize, table: &[u32]) -> usize
    requires { CanSeek z img.now by s t j table.now }
    ensures { (result ≡ seek_ref z img.now by table.now (t, j)) × (result < length table.now) }
{
    let number = number_at(z, img, by, s, t, j, layout::read::slot(z, img, t, j));
    let mut cursor = Cursor {
        slot: place_of(by.passBits, number, table.len()),
        slots: table.len(),
    };
    for _ in 0..table.len() {
        let at = cursor.slot;
        let w = table[at] as usize;
        if w == 0 {
            return at;
        }
        if refers_to_key(z, img, s, t, j, w) {
            return at;
        }
        cursor = cursor.step();
    }
    cursor.slot
}
