// What a slot holds, and what of it a key's hash gives. Segments and slots are powers of two: no division.
ghost use Rattle.std.specs.Prelude.{◌≡◌, ◌-◌, ◌%◌, ◌^◌, ◌<◌};
ghost use Rattle.settings.specs.Rules.{PowerOfTwo, Valid};
ghost use Rattle.entries.specs.Keys.{segment_of_hash as keys_segment_of_hash, lookup_of_hash as keys_lookup_of_hash, start as keys_start, slot_key as keys_slot_key, slot_chunk as keys_slot_chunk, slot_rest as keys_slot_rest, slot_with as keys_slot_with};
ghost use Rattle.entries.specs.Asking.{SlotParts};

use settings::Settings;

// n bits that are 1.
fn ones(n: usize) -> u64
    requires { n < 64 }
    ensures { result ≡ 2 ^ n - 1 }
{
    (1u64 << n) - 1
}

// The n lowest bits of x.
pub fn low_bits(x: u64, n: usize) -> u64
    requires { n < 64 }
    ensures { (result ≡ x % 2 ^ n) × (result < 2 ^ n) }
{
    x & ones(n)
}

// The bits below the one that a power of two is.
fn log2(x: usize) -> usize
    requires { PowerOfTwo x }
    ensures { (x ≡ 2 ^ result) × (result < 64) }
{
    x.ilog2() as usize
}

// The remainder by a power of two.
pub fn remainder(x: u64, n: usize) -> usize
    requires { PowerOfTwo n }
    ensures { (result ≡ x % n) × (result < n) }
{
    (x & (n as u64 - 1)) as usize
}

// The lookup key of a slot.
pub fn slot_key(st: Settings, v: u64) -> u64
    requires { Valid st }
    ensures { result ≡ keys_slot_key st v }
{
    low_bits(v, st.keyBits)
}

// Its first chunk.
pub fn slot_chunk(st: Settings, v: u64) -> usize
    requires { Valid st }
    ensures { result ≡ keys_slot_chunk st v }
{
    low_bits(v >> st.keyBits, st.chunkBits) as usize
}

// The bits above these.
pub fn slot_rest(st: Settings, v: u64) -> u64
    requires { Valid st }
    ensures { result ≡ keys_slot_rest st v }
{
    let n = st.keyBits + st.chunkBits;
    // a shift by all 64 bits is not allowed
    if n < 64 { v >> n } else { 0 }
}

// The slot with a lookup key and a chunk.
pub fn slot_with(st: Settings, lookup: u64, chunk: usize) -> u64
    requires { SlotParts st lookup chunk }
    ensures { result ≡ keys_slot_with st lookup chunk }
{
    lookup | ((chunk as u64) << st.keyBits)
}

// The segment of a hash.
pub fn segment_of_hash(st: Settings, h: u64) -> usize
    requires { Valid st }
    ensures { (result ≡ keys_segment_of_hash st h) × (result < st.segments) }
{
    remainder(h, st.segments)
}

// Its lookup key: never 0, so that the slot of chunk 0 does not look empty.
pub fn lookup_of_hash(st: Settings, h: u64) -> u64
    requires { Valid st }
    ensures { (result ≡ keys_lookup_of_hash st h) × (0 < result) × (result < 2 ^ st.keyBits) }
{
    let part = low_bits(h >> log2(st.segments), st.keyBits);
    if part == 0 {
        return ones(st.keyBits);
    }
    part
}

// The slot at which the search for a lookup key starts.
pub fn start(st: Settings, lookup: u64) -> usize
    requires { Valid st }
    ensures { (result ≡ keys_start st lookup) × (result < st.slots) }
{
    remainder(lookup, st.slots)
}
