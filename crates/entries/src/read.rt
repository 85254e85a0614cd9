// Entries as they stand in an image.
ghost use Rattle.std.specs.Prelude.{◌≡◌, ◌+◌, ◌*◌, ◌≤◌, length};
ghost use Rattle.lists.specs.Decide.{Decides};
ghost use Rattle.words.specs.Bytes.{cut, same};
ghost use Rattle.layout.specs.FramedTier.{FramedTier, FramedSlot};
ghost use Rattle.entries.specs.Stored.{stored as stored_stored, entry_of as stored_entry_of};
ghost use Rattle.entries.specs.Live.{full_slots as live_full_slots, chunk_of, entry_at, live_at as live_live_at};
ghost use Rattle.entries.specs.Asking.{Agree, Eights, WholeIn};
ghost use Rattle.entries.specs.Telling.{KeyPart};

use super::{Entry, Live, Part};
use layout::Shape;

// Whether n eights of bytes at an offset are those that a key begins with.
fn same_eights(img: &[u8], at: usize, n: usize, key: &[u8]) -> bool
    requires { Eights img.now at key.now n }
    ensures { Decides result (Agree img.now at key.now (8 * n)) }
{
    for k in 0..n {
        if words::read_le8(img, at + 8 * k) != words::read_le8(key, 8 * k) {
            return false;
        }
    }
    true
}

// Whether the n bytes at an offset are a key's.
pub fn same_key(img: &[u8], at: usize, n: usize, key: &[u8]) -> bool
    requires { at + n ≤ length img.now }
    ensures { result ≡ same (cut img.now at n) key.now }
{
    if n != key.len() {
        return false;
    }
    if !same_eights(img, at, n / 8, key) {
        return false;
    }
    for i in 8 * (n / 8)..n {
        if img[at + i] != key[i] {
            return false;
        }
    }
    true
}

// The entry at chunk c of a tier; nothing where its lengths cannot be read. Nothing past the tier's chunks is read.
pub fn stored(z: Shape, img: &[u8], t: usize, c: usize) -> Option<Entry>
    requires { FramedTier z img.now t }
    ensures { result ≡ stored_stored z img.now t c }
{
    if z.settings.chunks <= c {
        return None;
    }
    let end = layout::chunk_at(z, t, z.settings.chunks);
    let bytes = &img[..end];
    let (k, at) = leb128::read(bytes, layout::chunk_at(z, t, c))?;
    let (v, after) = leb128::read(bytes, at + k)?;
    Some(Entry {
        keyAt: at,
        keyLength: k,
        valueAt: after,
        valueLength: v,
    })
}

// Where the key of the entry at chunk c begins and how long it is, of an entry that can be read; the value's length is not read.
pub fn key_part(z: Shape, img: &[u8], t: usize, c: usize) -> Part
    requires { WholeIn z img.now t c }
    ensures { KeyPart z img.now t c result }
{
    let end = layout::chunk_at(z, t, z.settings.chunks);
    let (k, at) = leb128::read(&img[..end], layout::chunk_at(z, t, c)).unwrap();
    Part { at, length: k }
}

// The entry, with zeros where it cannot be read.
fn entry_of(s: Option<Entry>) -> Entry
    ensures { result ≡ stored_entry_of s }
{
    s.unwrap_or_default()
}

// The first chunk that slot j of a tier names.
pub fn chunk_of(z: Shape, img: &[u8], t: usize, j: usize) -> usize
    requires { FramedSlot z img.now t j }
    ensures { result ≡ chunk_of z img.now t j }
{
    super::keys::slot_chunk(z.settings, layout::read::slot(z, img, t, j))
}

// The entry there.
pub fn entry_at(z: Shape, img: &[u8], t: usize, j: usize) -> Entry
    requires { FramedSlot z img.now t j }
    ensures { result ≡ entry_at z img.now t j }
{
    entry_of(stored(z, img, t, chunk_of(z, img, t, j)))
}

// The live entry of slot j of a tier in segment s's chain.
pub fn live_at(z: Shape, img: &[u8], s: usize, t: usize, j: usize) -> Live
    requires { FramedSlot z img.now t j }
    ensures { result ≡ live_live_at z img.now s t j }
{
    let chunk = chunk_of(z, img, t, j);
    let e = entry_of(stored(z, img, t, chunk));
    Live {
        segment: s,
        tier: t,
        slot: j,
        chunk,
        chunks: super::chunks_for(z.settings, e.keyLength, e.valueLength),
        entry: e,
    }
}

// How many slots of a tier are full.
pub fn full_slots(z: Shape, img: &[u8], t: usize) -> usize
    requires { FramedTier z img.now t }
    ensures { result ≡ length (live_full_slots z img.now t) }
{
    let mut n = 0;
    for j in 0..z.settings.slots {
        if layout::read::slot(z, img, t, j) != 0 {
            n += 1;
        }
    }
    n
}
