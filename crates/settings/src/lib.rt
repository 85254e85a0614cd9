// The settings block: bytes that say how an image is laid out.
#![tactic(auto)]

ghost use Rattle.std.specs.Prelude.{◌≡◌, ◌+◌, ◌*◌, ◌≤◌, length, ◌<◌, MatchOption};
ghost use Rattle.lists.specs.Decide.{Decides};
ghost use Rattle.settings.specs.Versions.{head_size, least_fields, most_fields, block_size as versions_block_size, fields_of};
ghost use Rattle.settings.specs.Rules.{most_tier_slots, Between, PowerOfTwo, PartsFit, Valid, GlobalAt, Segments, HeaderSize, SlotSize, Slots, KeyBits, ChunkBits};
ghost use Rattle.settings.specs.Rules.{LookupSize, FreeListSize, InnerOffset, Chunks, ChunkSize, TierSize, BulkInner, BulkTiers, BulkSize, MostChunks};
ghost use Rattle.settings.specs.Block.{BlockFits, field as block_field, settings_of as block_settings_of, parse as block_parse};

// The numbers in the order of the block.
#[derive(Clone, Copy)]
pub struct Settings {
    pub globalAt: usize,
    pub segments: usize,
    pub headerSize: usize,
    pub slotSize: usize,
    pub slots: usize,
    pub keyBits: usize,
    pub chunkBits: usize,
    pub lookupSize: usize,
    pub freeListSize: usize,
    pub innerOffset: usize,
    pub chunks: usize,
    pub chunkSize: usize,
    pub tierSize: usize,
    pub bulkInner: usize,
    pub bulkTiers: usize,
    pub bulkSize: usize,
    pub mostChunks: usize,
}

// What of a block is refused: the block itself, or a field of it.
#[derive(Clone, Copy)]
pub enum ParseError {
    Block,
    Field,
}

// The bytes of a block before its fields: the length field and the version.
pub const HEAD_SIZE: usize = 3;

// The most fields in the table of versions.
pub const MOST_FIELDS: usize = 17;

// No field, and no image, is larger.
pub const LARGEST: usize = 16777216;

// The most slots and chunks of a tier, bytes of a chunk, and bytes before the first chunk.
pub const MOST_TIER_SLOTS: usize = 4096;

pub const MOST_TIER_CHUNKS: usize = 4096;

pub const LARGEST_CHUNK: usize = 4096;

pub const LARGEST_INNER: usize = 4096;

// The table of versions: the fields of each; 0 for a version that is not known.
pub fn fields_of(version: u8) -> usize
    ensures { (result ≡ fields_of version) × (result ≤ most_fields) }
{
    match version {
        1 => 17,
        _ => 0,
    }
}

// The same, and nothing for a version that is not known.
pub fn known_fields(version: u8) -> Option<usize>
    ensures { MatchOption result (0 ≡ fields_of version) (λ n. (n ≡ fields_of version) × (0 < n) × (n ≤ most_fields)) }
{
    let fields = fields_of(version);
    if fields == 0 { None } else { Some(fields) }
}

// The bytes of a block with so many fields.
pub fn block_size(fields: usize) -> usize
    requires { fields ≤ most_fields }
    ensures { result ≡ versions_block_size fields }
{
    HEAD_SIZE + 4 * fields
}

fn block_fits(block: &[u8]) -> bool
    ensures { Decides result (BlockFits block.now) }
{
    if block.len() < HEAD_SIZE {
        return false;
    }
    let Some(fields) = known_fields(block[2]) else {
        return false;
    };
    if block.len() != block_size(fields) {
        return false;
    }
    // what comes after the length field
    if words::read_be(block, 0, 2) != block.len() as u64 - 2 {
        return false;
    }
    true
}

// The number in row i + 1 of the table.
fn field(block: &[u8], i: usize) -> usize
    requires { head_size + 4 * i + 4 ≤ length block.now }
    ensures { result ≡ block_field block.now i }
{
    words::read_be(block, HEAD_SIZE + 4 * i, 4) as usize
}

fn settings_of(block: &[u8]) -> Settings
    requires { versions_block_size least_fields ≤ length block.now }
    ensures { result ≡ block_settings_of block.now }
{
    Settings {
        globalAt: field(block, 0),
        segments: field(block, 1),
        headerSize: field(block, 2),
        slotSize: field(block, 3),
        slots: field(block, 4),
        keyBits: field(block, 5),
        chunkBits: field(block, 6),
        lookupSize: field(block, 7),
        freeListSize: field(block, 8),
        innerOffset: field(block, 9),
        chunks: field(block, 10),
        chunkSize: field(block, 11),
        tierSize: field(block, 12),
        bulkInner: field(block, 13),
        bulkTiers: field(block, 14),
        bulkSize: field(block, 15),
        mostChunks: field(block, 16),
    }
}

fn power_of_two(n: usize) -> bool
    requires { Between 1 most_tier_slots n }
    ensures { Decides result (PowerOfTwo n) }
{
    n.is_power_of_two()
}

fn counts_fit(st: Settings) -> bool
    ensures { Decides result (GlobalAt st × Segments st × HeaderSize st × Slots st) }
{
    if st.globalAt % 64 != 0 {
        return false;
    }
    if 65536 < st.globalAt {
        return false;
    }
    if st.segments < 1 {
        return false;
    }
    if 256 < st.segments {
        return false;
    }
    if st.headerSize < 32 {
        return false;
    }
    if 256 < st.headerSize {
        return false;
    }
    if st.slots < 4 {
        return false;
    }
    if MOST_TIER_SLOTS < st.slots {
        return false;
    }
    if !power_of_two(st.segments) {
        return false;
    }
    if !power_of_two(st.slots) {
        return false;
    }
    true
}

fn slot_size_fits(st: Settings) -> bool
    ensures { Decides result (SlotSize st) }
{
    if st.slotSize == 4 {
        return true;
    }
    if st.slotSize == 8 {
        return true;
    }
    false
}

fn bits_fit(st: Settings) -> bool
    requires { SlotSize st }
    ensures { Decides result (KeyBits st × ChunkBits st × Chunks st) }
{
    if st.keyBits < 1 {
        return false;
    }
    if 56 < st.keyBits {
        return false;
    }
    if st.chunkBits < 1 {
        return false;
    }
    if 32 < st.chunkBits {
        return false;
    }
    if 8 * st.slotSize < st.keyBits + st.chunkBits {
        return false;
    }
    if st.chunks < 1 {
        return false;
    }
    if MOST_TIER_CHUNKS < st.chunks {
        return false;
    }
    if 1usize << st.chunkBits < st.chunks {
        return false;
    }
    true
}

fn ranges_fit(st: Settings) -> bool
    ensures { Decides result (InnerOffset st × ChunkSize st × BulkInner st × BulkTiers st × MostChunks st) }
{
    if LARGEST_INNER < st.innerOffset {
        return false;
    }
    if st.chunkSize < 1 {
        return false;
    }
    if LARGEST_CHUNK < st.chunkSize {
        return false;
    }
    if 65536 < st.bulkInner {
        return false;
    }
    if st.bulkTiers < 1 {
        return false;
    }
    if 64 < st.bulkTiers {
        return false;
    }
    if st.mostChunks < 1 {
        return false;
    }
    if 64 < st.mostChunks {
        return false;
    }
    if st.chunks < st.mostChunks {
        return false;
    }
    true
}

fn sizes_fit(st: Settings) -> bool
    requires { PartsFit st }
    ensures { Decides result (LookupSize st × FreeListSize st × TierSize st × BulkSize st) }
{
    if st.lookupSize < st.slots * st.slotSize {
        return false;
    }
    if LARGEST < st.lookupSize {
        return false;
    }
    if st.freeListSize < (st.chunks + 7) / 8 {
        return false;
    }
    if LARGEST < st.freeListSize {
        return false;
    }
    if st.tierSize
        < st.lookupSize + 64 + st.freeListSize + st.innerOffset + st.chunks * st.chunkSize
    {
        return false;
    }
    if LARGEST < st.tierSize {
        return false;
    }
    if st.bulkSize < st.bulkInner + st.bulkTiers * st.tierSize {
        return false;
    }
    if LARGEST < st.bulkSize {
        return false;
    }
    true
}

fn valid(st: Settings) -> bool
    ensures { Decides result (Valid st) }
{
    if !counts_fit(st) {
        return false;
    }
    if !slot_size_fits(st) {
        return false;
    }
    if !bits_fit(st) {
        return false;
    }
    if !ranges_fit(st) {
        return false;
    }
    if !sizes_fit(st) {
        return false;
    }
    true
}

// The settings that a block gives, or why it is refused.
pub fn parse(block: &[u8]) -> Result<Settings, ParseError>
    ensures { result ≡ block_parse block.now }
{
    if !block_fits(block) {
        return Err(ParseError::Block);
    }
    let st = settings_of(block);
    if valid(st) {
        Ok(st)
    } else {
        Err(ParseError::Field)
    }
}
