// Keys, slots and stored entries.
#![tactic(auto)]

use settings::Settings;

pub mod keys;
pub mod read;

ghost use Rattle.std.specs.Prelude.{◌≡◌, ◌+◌, ◌≤◌};
ghost use Rattle.lists.specs.Decide.{Decides};
ghost use Rattle.leb128.specs.Leb128.{largest_length};
ghost use Rattle.settings.specs.Rules.{Valid};
ghost use Rattle.entries.specs.Keys.{KeyFits};
ghost use Rattle.entries.specs.Stored.{value_offset as stored_value_offset, chunks_for as stored_chunks_for, SizeSays};
ghost use Rattle.entries.specs.Asking.{Lengths, Measures};

// The most bytes of a key and of a value.
pub const LONGEST_KEY: usize = 1024;

pub const LONGEST_VALUE: usize = 65535;

// A part of an image: where it begins, and how many bytes it has.
#[derive(Clone, Copy)]
pub struct Part {
    pub at: usize,
    pub length: usize,
}

// Where a stored entry's key and value stand in the image, and how long they are.
#[derive(Clone, Copy, Default)]
pub struct Entry {
    pub keyAt: usize,
    pub keyLength: usize,
    pub valueAt: usize,
    pub valueLength: usize,
}

// A live entry: its segment, tier, slot, first chunk, the chunks that it covers, and the stored entry.
#[derive(Clone, Copy)]
pub struct Live {
    pub segment: usize,
    pub tier: usize,
    pub slot: usize,
    pub chunk: usize,
    pub chunks: usize,
    pub entry: Entry,
}

// Whether these bytes are a key.
pub fn key_fits(st: Settings, key: &[u8]) -> bool
    ensures { Decides result (KeyFits st key.now) }
{
    !key.is_empty() && key.len() <= LONGEST_KEY
}

// Where the value starts, after the entry's first byte, by the lengths of key and value.
pub fn value_offset(st: Settings, k: usize, v: usize) -> usize
    requires { Lengths k v }
    ensures { (result ≡ stored_value_offset st k v) × (result ≤ 6 + k) }
{
    leb128::size(k) + k + leb128::size(v)
}

// The chunks that an entry covers, by these lengths.
pub fn chunks_for(st: Settings, k: usize, v: usize) -> usize
    requires { Measures st k v }
    ensures { result ≡ stored_chunks_for st k v }
{
    let size = value_offset(st, k, v) + v;
    // most entries take one chunk, and a division is slow
    if size <= st.chunkSize {
        return 1;
    }
    size.div_ceil(st.chunkSize)
}

// The chunks that an entry with a value of v bytes under a key of k bytes covers; nothing where the value does not fit.
pub fn value_fits(st: Settings, k: usize, v: usize) -> Option<usize>
    requires { Valid st × (k ≤ largest_length) }
    ensures { SizeSays st k v result }
{
    if LONGEST_VALUE < v {
        return None;
    }
    let n = chunks_for(st, k, v);
    if st.mostChunks < n {
        return None;
    }
    Some(n)
}
