// An entry placed: its chunks are marked, its bytes written there, the first empty slot from its start slot filled.
ghost use Rattle.std.specs.Prelude.{◌≡◌, ◌+◌, ◌≤◌, length};
ghost use Rattle.std.proofs.lemmas.List.Edits.{sets};
ghost use Rattle.entries.specs.Stored.{entry_bytes};
ghost use Rattle.search.specs.Search.{first_empty};
ghost use Rattle.placement.specs.Placement.{write_entry as placement_write_entry, written, place_at as placement_place_at};
ghost use Rattle.placement.specs.Asking.{CanWrite, NewKey, CanPlace};

use layout::Shape;
use search::Sought;
use settings::Settings;

// The slot for a new key: the empty slot that ends the search for it. Where that is known, as `slot`, the tier is not searched again.
fn slot_for(z: Shape, img: &[u8], key: &[u8], lookup: u64, t: usize, slot: Option<usize>) -> usize
    requires { NewKey z img.now key.now lookup t slot }
    ensures { result ≡ first_empty z img.now key.now t }
{
    if let Some(j) = slot {
        return j;
    }
    match search::seek(z, img, key, lookup, t) {
        Sought::Empty(j) => j,
        // never: the key is new
        Sought::Holds(j) => j,
    }
}

// Writes bytes at an offset. A loop: `copy_from_slice` would be a call of memmove, which the library needs nowhere else.
fn write_bytes(s: &mut [u8], at: usize, bytes: &[u8])
    requires { at + length bytes.now ≤ length s.old }
    ensures { s.new ≡ sets s.old at bytes.now }
{
    for i in 0..bytes.len() {
        s[at + i] = bytes[i];
    }
}

// Writes an entry's own bytes: key length, key, value length, value.
fn write_entry(st: Settings, img: &mut [u8], at: usize, key: &[u8], value: &[u8])
    requires { at + length (entry_bytes st key.now value.now) ≤ length img.old }
    ensures { img.new ≡ sets img.old at (entry_bytes st key.now value.now) }
{
    let key_at = leb128::write(img, at, key.len());
    write_bytes(img, key_at, key);
    let value_at = leb128::write(img, key_at + key.len(), value.len());
    write_bytes(img, value_at, value);
}

// Writes them from chunk c of tier t on, and nothing else.
pub fn write_from(z: Shape, img: &mut [u8], t: usize, c: usize, key: &[u8], value: &[u8])
    requires { CanWrite z img.old t c key.now value.now }
    ensures { img.new ≡ placement_write_entry z img.old t c key.now value.now }
{
    let at = layout::chunk_at(z, t, c);
    write_entry(z.settings, img, at, key, value);
}

// Marks the chunks of an entry from c on, and writes it there.
fn write_at(z: Shape, img: &mut [u8], t: usize, c: usize, key: &[u8], value: &[u8])
    requires { CanWrite z img.old t c key.now value.now }
    ensures { img.new ≡ written z img.old t c key.now value.now }
{
    let n = entries::chunks_for(z.settings, key.len(), value.len());
    layout::write::put_marks(z, img, t, c, n, 1);
    write_from(z, img, t, c, key, value);
}

// Places an entry in tier t, in the chunks from c on, and in `slot` where the search for the key has ended there.
pub fn place_at(
    z: Shape,
    img: &mut [u8],
    t: usize,
    c: usize,
    slot: Option<usize>,
    key: &[u8],
    value: &[u8],
)
    requires { CanPlace z img.old t c slot key.now value.now }
    ensures { img.new ≡ placement_place_at z img.old t c key.now value.now }
{
    let lookup = entries::keys::lookup_of_hash(z.settings, xxh64::xxh64(key));
    // before the write: until then every stored key reads as it did
    let j = slot_for(z, img, key, lookup, t, slot);
    write_at(z, img, t, c, key, value);
    let v = entries::keys::slot_with(z.settings, lookup, c);
    layout::write::put_slot(z, img, t, j, v);
}
