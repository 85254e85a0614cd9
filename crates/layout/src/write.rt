// The numbers of an image, written: one function for each kind of place. No other byte changes.
ghost use Rattle.std.specs.Prelude.{◌≡◌, ◌<◌, length};
ghost use Rattle.layout.specs.Tiers.{IsTier};
ghost use Rattle.layout.specs.Places.{put, global, tier, slot, counter, shared_place, own_counter, put_marks as places_put_marks};
ghost use Rattle.layout.specs.Frame.{Framed, HasChunks};
ghost use Rattle.layout.specs.FramedTier.{FramedSlot};

use super::{Counter, Global, Header, Shape};

pub fn put_global(z: Shape, img: &mut [u8], field: Global, v: u64)
    requires { Framed z (length img.old) }
    ensures { img.new ≡ put z img.old (global field) v }
{
    let (at, wide) = field.bytes();
    words::write_le(img, z.settings.globalAt + at, wide, v);
}

// A number that a main tier has in its segment header, and any other tier in its counters.
pub fn put_shared(z: Shape, img: &mut [u8], t: usize, field: Header, v: u64)
    requires { Framed z (length img.old) × IsTier z t }
    ensures { img.new ≡ put z img.old (shared_place z field (own_counter field) t) v }
{
    let (at, wide) = super::shared_bytes(z, t, field);
    words::write_le(img, at, wide, v);
}

pub fn put_counter(z: Shape, img: &mut [u8], t: usize, field: Counter, v: u64)
    requires { Framed z (length img.old) × IsTier z t }
    ensures { img.new ≡ put z img.old (tier t (counter field)) v }
{
    let (at, wide) = field.bytes();
    words::write_le(img, super::counters_at(z, t) + at, wide, v);
}

pub fn put_slot(z: Shape, img: &mut [u8], t: usize, j: usize, v: u64)
    requires { FramedSlot z img.old t j }
    ensures { img.new ≡ put z img.old (tier t (slot j)) v }
{
    let wide = z.settings.slotSize;
    let at = super::tier_at(z, t) + j * wide;
    words::write_le(img, at, wide, v);
}

// Makes the marks of the n chunks from c on b: 1 marked, 0 clear.
pub fn put_marks(z: Shape, img: &mut [u8], t: usize, c: usize, n: usize, b: u8)
    requires { HasChunks z (length img.old) t c n × (b < 2) }
    ensures { img.new ≡ places_put_marks z img.old t c n b }
{
    words::put_bits(img, super::free_list_at(z, t), c, n, b);
}
