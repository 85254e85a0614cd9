// One bulk more after the last: its tiers are emptied and stand in front of the free tiers.
#![tactic(auto)]

ghost use Rattle.std.specs.Prelude.{◌≡◌, ◌≤◌, length};
ghost use Rattle.settings.specs.Rules.{largest};
ghost use Rattle.layout.specs.Frame.{Framed, most_tiers};
ghost use Rattle.layout.specs.FramedTier.{FramedTier};
ghost use Rattle.growing.specs.Growing.{grown as growing_grown, no_bulk as growing_no_bulk, empty_slots as growing_empty_slots, empty_tier as growing_empty_tier, after_new as growing_after_new, new_tiers as growing_new_tiers, grow_image};
ghost use Rattle.growing.specs.Asking.{FramedExtra};

use layout::{Counter, Global, Header, Shape};

// The shape with one bulk more.
fn grown(z: Shape) -> Shape
    requires { Framed z largest }
    ensures { result ≡ growing_grown z }
{
    Shape {
        bulks: z.bulks + 1,
        ..z
    }
}

// Whether there is no room for a bulk: the tiers would pass 1,024, or the image is too short.
pub fn no_bulk(z: Shape, img: &[u8]) -> bool
    requires { Framed z (length img.now) }
    ensures { result ≡ growing_no_bulk z (length img.now) }
{
    let more = grown(z);
    if layout::MOST_TIERS < layout::tier_count(more) {
        return true;
    }
    img.len() < layout::store_end(more)
}

// Makes every slot of a tier 0.
fn empty_slots(z: Shape, img: &mut [u8], t: usize)
    requires { FramedTier z img.old t }
    ensures { img.new ≡ growing_empty_slots z img.old t z.settings.slots }
{
    for j in 0..z.settings.slots {
        layout::write::put_slot(z, img, t, j, 0);
    }
}

// Makes a tier of a bulk one that holds nothing, with the tier after it. Of its free list only the bits of chunks are written.
fn empty_tier(z: Shape, img: &mut [u8], t: usize, after: u64)
    requires { FramedExtra z img.old t }
    ensures { img.new ≡ growing_empty_tier z img.old t after }
{
    empty_slots(z, img, t);
    layout::write::put_shared(z, img, t, Header::NextTier, after);
    layout::write::put_counter(z, img, t, Counter::Previous, 0);
    layout::write::put_shared(z, img, t, Header::LowestFree, 0);
    layout::write::put_counter(z, img, t, Counter::Segment, 0);
    layout::write::put_counter(z, img, t, Counter::Order, 0);
    layout::write::put_shared(z, img, t, Header::EntryCount, 0);
    layout::write::put_marks(z, img, t, 0, z.settings.chunks, 0);
}

// The tier after new tier t: the one with the next index, or after the last one the old head of the free chain.
fn after_new(t: usize, last: usize, head: u64) -> u64
    requires { (t ≤ last) × (last ≤ most_tiers) }
    ensures { result ≡ growing_after_new t last head }
{
    if t == last {
        return head;
    }
    t as u64 + 1
}

// Empties the tiers of the new bulk and links them, the first to the second and so on, the last to the old head.
fn new_tiers(z: Shape, img: &mut [u8])
    requires { Framed (growing_grown z) (length img.old) }
    ensures { img.new ≡ growing_new_tiers z img.old z.settings.bulkTiers }
{
    let more = grown(z);
    let last = layout::tier_count(more);
    let head = layout::read::global(more, img, Global::FirstFree);
    let first = layout::tier_count(z) + 1;
    for k in 0..z.settings.bulkTiers {
        let t = first + k;
        empty_tier(more, img, t, after_new(t, last, head));
    }
}

// Adds the bulk. All that is written besides its tiers: bulk count, first free tier, store size.
pub fn grow(z: Shape, img: &mut [u8])
    requires { Framed (growing_grown z) (length img.old) }
    ensures { img.new ≡ grow_image z img.old }
{
    let more = grown(z);
    new_tiers(z, img);
    layout::write::put_global(more, img, Global::BulkCount, more.bulks as u64);
    layout::write::put_global(
        more,
        img,
        Global::FirstFree,
        layout::tier_count(z) as u64 + 1,
    );
    layout::write::put_global(more, img, Global::StoreSize, layout::store_end(more) as u64);
}
