// The live entries one after the other, in one walk: by segment, chain order, slot.
ghost use Rattle.std.specs.Prelude.{◌≡◌, List, ◌≢◌, ℕ, ◌<◌, length};
ghost use Rattle.settings.specs.Rules.{largest};
ghost use Rattle.layout.specs.Frame.{Framed};
ghost use Rattle.entries.specs.Live.{live_at as live_live_at};
ghost use Rattle.search.specs.Search.{ChainTiers};
ghost use Rattle.image.specs.Cursor.{InChain, start_of, rest, Begins, Steps};
ghost use Rattle.image.specs.Moving.{OnFull, Moves, InTier, Settled, CanLook, CanMove};

use entries::Live;
use layout::{Header, Shape};

// A place among the live entries: a slot of a tier in a segment's chain. Of the chain at most `left` tiers are still met, this
// one with them, so that a walk ends. The next `skip` entries are passed over: of those only the slots are read.
#[derive(Clone, Copy)]
pub struct LiveCursor {
    pub segment: usize,
    pub tier: usize,
    pub left: usize,
    pub slot: usize,
    pub skip: usize,
}

impl LiveCursor {
    // Before the entries of segment s, with n to pass over.
    pub fn start(z: Shape, s: usize, n: usize) -> LiveCursor
        requires { Framed z largest × (s < z.settings.segments) }
        ensures { result ≡ start_of z s n }
    {
        LiveCursor {
            segment: s,
            tier: s + 1,
            left: layout::tier_count(z),
            slot: 0,
            skip: n,
        }
    }

    // Before all entries.
    pub fn first(z: Shape) -> LiveCursor
        requires { Framed z largest }
        ensures { (img : List ℕ) → ChainTiers z img → Begins z img result }
    {
        LiveCursor::start(z, 0, 0)
    }

    // In its tier to the full slot of the next entry, or past the slots.
    fn in_tier(self, z: Shape, img: &[u8]) -> LiveCursor
        requires { CanLook z img.now self }
        ensures { InTier z img.now self result × (result.slot < z.settings.slots → OnFull z img.now result) }
    {
        let mut c = self;
        // A `for` would be no plainer: the slot is a field of the cursor, which is handed back.
        while c.slot < z.settings.slots {
            if layout::read::slot(z, img, c.tier, c.slot) == 0 {
                c.slot += 1;
                continue;
            }
            if c.skip == 0 {
                return c;
            }
            c.skip -= 1;
            c.slot += 1;
        }
        c
    }

    // Along the chain to the full slot of the next entry, or until no tier is left.
    fn in_chain(self, z: Shape, img: &[u8]) -> LiveCursor
        requires { Framed z (length img.now) × InChain z img.now self }
        ensures { Moves z img.now self result × (result.segment ≡ self.segment) × (result.left ≢ 0 → OnFull z img.now result) }
    {
        let mut c = self;
        // A `for` would be no plainer: how many are left is a field of the cursor, which is handed back.
        while c.left != 0 {
            if c.tier == 0 {
                c.left = 0;
                return c;
            }
            c = c.in_tier(z, img);
            if c.slot < z.settings.slots {
                return c;
            }
            c.tier = layout::read::shared(z, img, c.tier, Header::NextTier) as usize;
            c.left -= 1;
            c.slot = 0;
        }
        c
    }

    // To the full slot of the next entry, or until no tier is left in any chain.
    pub fn settled(self, z: Shape, img: &[u8]) -> LiveCursor
        requires { CanMove z img.now self }
        ensures { Moves z img.now self result × Settled z img.now result }
    {
        let mut c = self;
        loop {
            c = c.in_chain(z, img);
            if c.left != 0 {
                return c;
            }
            if z.settings.segments <= c.segment + 1 {
                return c;
            }
            c = LiveCursor::start(z, c.segment + 1, c.skip);
        }
    }

    // The entry of the full slot on which the cursor stands.
    pub fn entry(self, z: Shape, img: &[u8]) -> Live
        requires { Framed z (length img.now) × OnFull z img.now self }
        ensures { result ≡ live_live_at z img.now self.segment self.tier self.slot }
    {
        entries::read::live_at(z, img, self.segment, self.tier, self.slot)
    }

    // The next live entry and a cursor after it, where one is left.
    // By value, and no Iterator: docs/GUARANTEES.md names `first` and `step` and what they promise.
    pub fn step(self, z: Shape, img: &[u8]) -> Option<(Live, LiveCursor)>
        requires { CanMove z img.now self }
        ensures { Steps z img.now (rest z img.now self) result }
    {
        let c = self.settled(z, img);
        if c.left == 0 {
            return None;
        }
        let after = LiveCursor {
            segment: c.segment,
            tier: c.tier,
            left: c.left,
            slot: c.slot + 1,
            skip: 0,
        };
        Some((c.entry(z, img), after))
    }
}
