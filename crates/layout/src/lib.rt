// Where everything stands in an image: the frame, the tiers, the named places.
#![tactic(auto)]

use settings::Settings;

pub mod read;
pub mod write;

ghost use Rattle.std.specs.Prelude.{◌≡◌, ◌+◌, ◌*◌, ◌<◌, ◌≤◌, length, get_or};
ghost use Rattle.lists.specs.Decide.{Decides};
ghost use Rattle.settings.specs.Rules.{Valid, Between, largest};
ghost use Rattle.layout.specs.Tiers.{tiers, mains as tiers_mains, bulks_at as tiers_bulks_at, store_end as tiers_store_end, extra_at as tiers_extra_at, tier_at as tiers_tier_at, IsTier};
ghost use Rattle.layout.specs.Places.{field_at, global_no, global_widths, header_no, header_widths, counter_no, counter_widths, own_counter};
ghost use Rattle.layout.specs.Places.{at as place_at, wide, shared_place, counters_at as places_counters_at, counters_of, free_list_at as places_free_list_at, chunk_at as places_chunk_at};
ghost use Rattle.layout.specs.Frame.{shape_of, Bounded, FrameFits, frame_of, Framed, HasChunks, global_size};

// The settings, with the two numbers of the global state that say where things stand: the headers offset and the bulk count.
#[derive(Clone, Copy)]
pub struct Shape {
    pub settings: Settings,
    pub headers: usize,
    pub bulks: usize,
}

// The most tiers of an image.
pub const MOST_TIERS: usize = 1024;

// The bytes of the global state.
const GLOBAL_SIZE: usize = 33;

// Offsets in the global state.
const BULK_COUNT: usize = 8;

const FIRST_FREE: usize = 11;

const USED_TIERS: usize = 16;

const HEADERS_OFFSET: usize = 21;

const STORE_SIZE: usize = 25;

// The numbers of the global state.
#[derive(Clone, Copy)]
pub enum Global {
    BulkCount,
    FirstFree,
    UsedTiers,
    HeadersOffset,
    StoreSize,
}

impl Global {
    // The offset in the global state, and how many bytes.
    fn bytes(self) -> (usize, usize)
        ensures { result ≡ (8 + field_at global_widths (global_no self), get_or global_widths (global_no self) 0) }
    {
        match self {
            Global::BulkCount => (BULK_COUNT, 3),
            Global::FirstFree => (FIRST_FREE, 5),
            Global::UsedTiers => (USED_TIERS, 5),
            Global::HeadersOffset => (HEADERS_OFFSET, 4),
            Global::StoreSize => (STORE_SIZE, 8),
        }
    }
}

// Offsets in a segment header.
const ENTRY_COUNT: usize = 8;

const LOWEST_FREE: usize = 12;

const NEXT_TIER: usize = 16;

// The numbers of a segment header: a main tier has them there, any other tier in its counters.
#[derive(Clone, Copy)]
pub enum Header {
    EntryCount,
    LowestFree,
    NextTier,
}

impl Header {
    // The offset in a segment header, and how many bytes.
    fn bytes(self) -> (usize, usize)
        ensures { result ≡ (8 + field_at header_widths (header_no self), get_or header_widths (header_no self) 0) }
    {
        match self {
            Header::EntryCount => (ENTRY_COUNT, 4),
            Header::LowestFree => (LOWEST_FREE, 4),
            Header::NextTier => (NEXT_TIER, 8),
        }
    }

    // The counter in which a tier without a segment header has this number.
    fn counter(self) -> Counter
        ensures { result ≡ own_counter self }
    {
        match self {
            Header::EntryCount => Counter::Count,
            Header::LowestFree => Counter::Low,
            Header::NextTier => Counter::Next,
        }
    }
}

// The counters that every tier has in its own place. Next, low and count are not among them: a main tier has
// those in its segment header, and in its counters they are neither read nor written. See Header.
#[derive(Clone, Copy)]
pub struct Counters {
    pub previous: u64,
    pub segment: u64,
    pub order: u64,
}

impl Counters {
    pub const NEXT: usize = 0;

    pub const PREVIOUS: usize = 8;

    pub const LOW: usize = 16;

    pub const SEGMENT: usize = 24;

    pub const ORDER: usize = 28;

    pub const COUNT: usize = 32;

    pub fn read(z: Shape, img: &[u8], t: usize) -> Counters
        requires { Framed z (length img.now) × IsTier z t }
        ensures { result ≡ counters_of z img.now t }
    {
        let at = counters_at(z, t);
        Counters {
            previous: words::read_le8(img, at + Counters::PREVIOUS),
            segment: words::read_le4(img, at + Counters::SEGMENT),
            order: words::read_le4(img, at + Counters::ORDER),
        }
    }
}

// The numbers of a tier's counters.
#[derive(Clone, Copy)]
pub enum Counter {
    Next,
    Previous,
    Low,
    Segment,
    Order,
    Count,
}

impl Counter {
    // The offset in the counters, and how many bytes.
    fn bytes(self) -> (usize, usize)
        ensures { result ≡ (field_at counter_widths (counter_no self), get_or counter_widths (counter_no self) 0) }
    {
        match self {
            Counter::Next => (Counters::NEXT, 8),
            Counter::Previous => (Counters::PREVIOUS, 8),
            Counter::Low => (Counters::LOW, 8),
            Counter::Segment => (Counters::SEGMENT, 4),
            Counter::Order => (Counters::ORDER, 4),
            Counter::Count => (Counters::COUNT, 4),
        }
    }
}

// Tiers in all.
pub fn tier_count(z: Shape) -> usize
    requires { Bounded z }
    ensures { result ≡ tiers z }
{
    z.settings.segments + z.bulks * z.settings.bulkTiers
}

// Where the main tiers start.
fn mains(z: Shape) -> usize
    requires { Bounded z }
    ensures { result ≡ tiers_mains z }
{
    z.headers + z.settings.segments * z.settings.headerSize
}

// Where the bulks start.
fn bulks_at(z: Shape) -> usize
    requires { Bounded z }
    ensures { result ≡ tiers_bulks_at z }
{
    mains(z) + z.settings.segments * z.settings.tierSize
}

// Where the store ends.
pub fn store_end(z: Shape) -> usize
    requires { Bounded z }
    ensures { result ≡ tiers_store_end z }
{
    bulks_at(z) + z.bulks * z.settings.bulkSize
}

fn shape_of(st: Settings, img: &[u8]) -> Shape
    requires { Valid st × (st.globalAt + global_size ≤ length img.now) }
    ensures { (result ≡ shape_of st img.now) × Bounded result }
{
    let at = st.globalAt;
    Shape {
        settings: st,
        headers: words::read_le4(img, at + HEADERS_OFFSET) as usize,
        bulks: words::read_le(img, at + BULK_COUNT, 3) as usize,
    }
}

fn frame_fits(z: Shape, img: &[u8]) -> bool
    requires { Bounded z × Between (z.settings.globalAt + global_size) largest (length img.now) }
    ensures { Decides result (FrameFits z img.now) }
{
    if z.headers < z.settings.globalAt + GLOBAL_SIZE {
        return false;
    }
    if MOST_TIERS < tier_count(z) {
        return false;
    }
    let end = store_end(z);
    if words::read_le8(img, z.settings.globalAt + STORE_SIZE) as usize != end {
        return false;
    }
    if img.len() < end {
        return false;
    }
    true
}

// The shape of an image whose frame fits, or nothing.
pub fn frame_of(st: Settings, img: &[u8]) -> Option<Shape>
    requires { Valid st }
    ensures { result ≡ frame_of st img.now }
{
    if img.len() < st.globalAt + GLOBAL_SIZE {
        return None;
    }
    if settings::LARGEST < img.len() {
        return None;
    }
    let z = shape_of(st, img);
    if frame_fits(z, img) { Some(z) } else { None }
}

// ---- where the parts of a tier stand

// Extra tier e, counted from 0, after the start of the first bulk.
fn extra_at(z: Shape, e: usize) -> usize
    requires { Framed z largest × (e < z.bulks * z.settings.bulkTiers) }
    ensures { result ≡ tiers_extra_at z e }
{
    let bulk = e / z.settings.bulkTiers;
    let place = e % z.settings.bulkTiers;
    bulk * z.settings.bulkSize + z.settings.bulkInner + place * z.settings.tierSize
}

pub fn tier_at(z: Shape, t: usize) -> usize
    requires { Framed z largest × IsTier z t }
    ensures { result ≡ tiers_tier_at z t }
{
    if t <= z.settings.segments {
        mains(z) + (t - 1) * z.settings.tierSize
    } else {
        bulks_at(z) + extra_at(z, t - 1 - z.settings.segments)
    }
}

fn counters_at(z: Shape, t: usize) -> usize
    requires { Framed z largest × IsTier z t }
    ensures { result ≡ places_counters_at z t }
{
    tier_at(z, t) + z.settings.lookupSize
}

pub fn free_list_at(z: Shape, t: usize) -> usize
    requires { Framed z largest × IsTier z t }
    ensures { result ≡ places_free_list_at z t }
{
    counters_at(z, t) + 64
}

// Where chunk c starts, or where the chunks end: a run of no chunks is enough.
pub fn chunk_at(z: Shape, t: usize, c: usize) -> usize
    requires { HasChunks z largest t c 0 }
    ensures { result ≡ places_chunk_at z t c }
{
    free_list_at(z, t) + z.settings.freeListSize + z.settings.innerOffset + c * z.settings.chunkSize
}

// Where a number stands that a main tier has in its segment header and any other tier in its counters, and how many bytes.
fn shared_bytes(z: Shape, t: usize, field: Header) -> (usize, usize)
    requires { Framed z largest × IsTier z t }
    ensures { result ≡ (place_at z (shared_place z field (own_counter field) t), wide z (shared_place z field (own_counter field) t)) }
{
    if z.settings.segments < t {
        let (at, wide) = field.counter().bytes();
        (counters_at(z, t) + at, wide)
    } else {
        let (at, wide) = field.bytes();
        (z.headers + (t - 1) * z.settings.headerSize + at, wide)
    }
}
