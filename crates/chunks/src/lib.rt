// The free lists, and the chunks that entries cover.
#![tactic(auto)]

ghost use Rattle.std.specs.Prelude.{◌≡◌, ◌+◌, ◌*◌, ◌/◌, ◌<◌, ◌≤◌, length, get_or};
ghost use Rattle.lists.specs.Decide.{Decides};
ghost use Rattle.lists.specs.Lists.{span};
ghost use Rattle.lists.specs.Quantify.{Below, Every};
ghost use Rattle.words.specs.Bits.{bit_of};
ghost use Rattle.layout.specs.Places.{mark};
ghost use Rattle.layout.specs.FramedTier.{FramedTier};
ghost use Rattle.chains.specs.Chains.{free_chain};
ghost use Rattle.chains.specs.Walk.{tally};
ghost use Rattle.entries.specs.Live.{slot_at};
ghost use Rattle.chunks.specs.Chunks.{lowest_clear as chunks_lowest_clear, LowMarkFits, FreeTierFits};
ghost use Rattle.chunks.specs.Counting.{IsByte, IsFour, spread_of, MarksBelow, FirstOther};
ghost use Rattle.chunks.specs.Asking.{CanCount, WholeByte, CanCompare, FramedFree};

use layout::{Global, Header, Shape};

// Counts n chunks from c on once more.
pub fn count(covered: &mut [u16], c: usize, n: usize)
    requires { CanCount covered.old c n }
    ensures { covered.new ≡ tally covered.old (span c n) }
{
    for i in 0..n {
        covered[c + i] += 1;
    }
}

// The byte with the bits of the 8 chunks from i on, of the free list at an offset: the loops work the offset out once.
fn byte_of(z: Shape, img: &[u8], t: usize, at: usize, i: usize) -> u8
    requires { WholeByte z img.now t at i }
    ensures { IsByte z img.now t i result }
{
    img[at + i / 8]
}

// The counts of 4 chunks as one number, written out so that it compiles to one load.
fn four(covered: &[u16], i: usize) -> u64
    requires { i + 4 ≤ length covered.now }
    ensures { IsFour covered.now i result }
{
    u64::from(covered[i])
        + u64::from(covered[i + 1]) * 65536
        + u64::from(covered[i + 2]) * 4294967296
        + u64::from(covered[i + 3]) * 281474976710656
}

// The 4 lowest bits of a number, spread out in the same way: the library has no method that spreads bits.
fn spread(v: u8) -> u64
    ensures { result ≡ spread_of v }
{
    if v == 0 {
        return 0;
    }
    let w = u64::from(v);
    w % 2 + w / 2 % 2 * 65536 + w / 4 % 2 * 4294967296 + w / 8 % 2 * 281474976710656
}

// Whether the 8 bits of a byte are how many entries cover the chunks from i on.
fn byte_agrees(covered: &[u16], i: usize, v: u8) -> bool
    requires { i + 8 ≤ length covered.now }
    ensures { Decides result (Below 8 (λ k. get_or covered.now (i + k) 0 ≡ bit_of v k)) }
{
    if four(covered, i) != spread(v) {
        return false;
    }
    if four(covered, i + 4) != spread(v / 16) {
        return false;
    }
    true
}

// How many bits of a tier are 1, where the bit of each chunk is how many entries cover it; nothing where one is not. The chunks of whole bytes.
fn bytes_agree(z: Shape, img: &[u8], t: usize, covered: &[u16]) -> Option<usize>
    requires { CanCompare z img.now t covered.now }
    ensures { MarksBelow z img.now t covered.now (z.settings.chunks / 8 * 8) result }
{
    let at = layout::free_list_at(z, t);
    let mut marked = 0;
    for k in 0..z.settings.chunks / 8 {
        let v = byte_of(z, img, t, at, k * 8);
        if !byte_agrees(covered, k * 8, v) {
            return None;
        }
        marked += v.count_ones() as usize;
    }
    Some(marked)
}

// The same for all chunks of a tier.
pub fn marks_agree(z: Shape, img: &[u8], t: usize, covered: &[u16]) -> Option<usize>
    requires { CanCompare z img.now t covered.now }
    ensures { MarksBelow z img.now t covered.now z.settings.chunks result }
{
    let mut marked = bytes_agree(z, img, t, covered)?;
    for i in z.settings.chunks / 8 * 8..z.settings.chunks {
        let bit = layout::read::mark(z, img, t, i);
        if covered[i] != u16::from(bit) {
            return None;
        }
        marked += usize::from(bit);
    }
    Some(marked)
}

// Chunks of whole bytes, from the first on, whose marks are all b: as many as there are before a byte with another bit.
fn whole_bytes(z: Shape, img: &[u8], t: usize, b: u8) -> usize
    requires { FramedTier z img.now t × (b < 2) }
    ensures { (result ≤ z.settings.chunks) × Below result (λ i. mark z img.now t i ≡ b) }
{
    let at = layout::free_list_at(z, t);
    for k in 0..z.settings.chunks / 8 {
        if byte_of(z, img, t, at, k * 8) != b * 255 {
            return k * 8;
        }
    }
    z.settings.chunks / 8 * 8
}

// The lowest chunk of a tier whose mark is not b, or the number of chunks if none is.
// A loop, for the reason that `slots_empty` gives. Inlined: a call copies the whole shape.
#[inline(always)]
fn lowest_other(z: Shape, img: &[u8], t: usize, b: u8) -> usize
    requires { FramedTier z img.now t × (b < 2) }
    ensures { FirstOther z img.now t b result }
{
    for i in whole_bytes(z, img, t, b)..z.settings.chunks {
        if layout::read::mark(z, img, t, i) != b {
            return i;
        }
    }
    z.settings.chunks
}

// The lowest clear chunk of a tier, or the number of chunks if none is.
pub fn lowest_clear(z: Shape, img: &[u8], t: usize) -> usize
    requires { FramedTier z img.now t }
    ensures { result ≡ chunks_lowest_clear z img.now t }
{
    lowest_other(z, img, t, 1)
}

// Whether the lowest free chunk field of a tier fits: it may be lower than the lowest clear chunk, but not where no chunk is clear.
pub fn low_mark_fits(z: Shape, img: &[u8], t: usize) -> bool
    requires { FramedTier z img.now t }
    ensures { Decides result (LowMarkFits z img.now t) }
{
    let low = lowest_clear(z, img, t);
    let field = layout::read::shared(z, img, t, Header::LowestFree);
    if (low as u64) < field {
        return false;
    }
    if low < z.settings.chunks {
        return true;
    }
    field == low as u64
}

// Whether all chunks of a tier are clear.
fn all_clear(z: Shape, img: &[u8], t: usize) -> bool
    requires { FramedTier z img.now t }
    ensures { Decides result (Below z.settings.chunks (λ i. mark z img.now t i ≡ 0)) }
{
    lowest_other(z, img, t, 0) == z.settings.chunks
}

// Whether all slots of a tier are empty. A loop: as an `all` of the range it computes the tier's offset, with its division, for each slot.
fn slots_empty(z: Shape, img: &[u8], t: usize) -> bool
    requires { FramedTier z img.now t }
    ensures { Decides result (Below z.settings.slots (λ j. slot_at z img.now t j ≡ 0)) }
{
    for j in 0..z.settings.slots {
        if layout::read::slot(z, img, t, j) != 0 {
            return false;
        }
    }
    true
}

// Whether the tiers of the free chain hold nothing.
pub fn free_fits(z: Shape, img: &[u8]) -> bool
    requires { FramedFree z img.now }
    ensures { Decides result (Every (free_chain z img.now) (FreeTierFits z img.now)) }
{
    let mut t = layout::read::global(z, img, Global::FirstFree) as usize;
    while t != 0 {
        if !slots_empty(z, img, t) {
            return false;
        }
        if !all_clear(z, img, t) {
            return false;
        }
        t = layout::read::shared(z, img, t, Header::NextTier) as usize;
    }
    true
}
