// The numbers of an image, read: one function for each kind of place.
ghost use Rattle.std.specs.Prelude.{◌≡◌, ◌<◌, length};
ghost use Rattle.layout.specs.Tiers.{IsTier};
ghost use Rattle.layout.specs.Places.{get, global as places_global, tier, slot as places_slot, shared_place, own_counter, mark as places_mark};
ghost use Rattle.layout.specs.Frame.{Framed, HasChunks};
ghost use Rattle.layout.specs.FramedTier.{FramedSlot};

use super::{Global, Header, Shape};

pub fn global(z: Shape, img: &[u8], field: Global) -> u64
    requires { Framed z (length img.now) }
    ensures { result ≡ get z img.now (places_global field) }
{
    let (at, wide) = field.bytes();
    words::read_le(img, z.settings.globalAt + at, wide)
}

// A number that a main tier has in its segment header, and any other tier in its counters.
pub fn shared(z: Shape, img: &[u8], t: usize, field: Header) -> u64
    requires { Framed z (length img.now) × IsTier z t }
    ensures { result ≡ get z img.now (shared_place z field (own_counter field) t) }
{
    let (at, wide) = super::shared_bytes(z, t, field);
    if wide == 4 {
        words::read_le4(img, at)
    } else {
        words::read_le8(img, at)
    }
}

pub fn slot(z: Shape, img: &[u8], t: usize, j: usize) -> u64
    requires { FramedSlot z img.now t j }
    ensures { result ≡ get z img.now (tier t (places_slot j)) }
{
    let at = super::tier_at(z, t) + j * z.settings.slotSize;
    if z.settings.slotSize == 4 {
        words::read_le4(img, at)
    } else {
        words::read_le8(img, at)
    }
}

// The bit of chunk i.
pub fn mark(z: Shape, img: &[u8], t: usize, i: usize) -> u8
    requires { HasChunks z (length img.now) t i 1 }
    ensures { (result ≡ places_mark z img.now t i) × (result < 2) }
{
    words::bit(img, super::free_list_at(z, t), i)
}
