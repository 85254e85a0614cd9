// Keys that are searched for, as a lookup does: those of a pass that meets more than its table takes, which is right and slow, and those
// of later tiers where they are few.
ghost use Rattle.lists.specs.Decide.{Decides};
ghost use Rattle.lists.specs.Quantify.{Every};
ghost use Rattle.chains.specs.Chains.{chain};
ghost use Rattle.search.specs.Rules.{KeysOnce};
ghost use Rattle.once.specs.Asking.{ReadTier, ReadPass, FirstAlone};
ghost use Rattle.once.specs.Walk.{PassLands};

use super::Sharing;
use layout::{Header, Shape};

// Whether the search for each key of tier t that pass p takes ends at the key's own slot.
fn tier_lands(z: Shape, img: &[u8], by: Sharing, p: u64, s: usize, t: usize) -> bool
    requires { ReadTier z img.now by s t }
    ensures { Decides result (PassLands z img.now by p t) }
{
    let mut j = super::next_in_pass(z, img, by, p, s, t, 0);
    while j < z.settings.slots {
        if !search::rules::lands(z, img, s, t, j) {
            return false;
        }
        j = super::next_in_pass(z, img, by, p, s, t, j + 1);
    }
    true
}

// Whether it does for each key of segment s's chain that pass p takes.
pub fn chain_lands(z: Shape, img: &[u8], by: Sharing, p: u64, s: usize) -> bool
    requires { ReadPass z img.now by s }
    ensures { Decides result (Every (chain z img.now s) (PassLands z img.now by p)) }
{
    let mut t = s + 1;
    while t != 0 {
        if !tier_lands(z, img, by, p, s, t) {
            return false;
        }
        t = layout::read::shared(z, img, t, Header::NextTier) as usize;
    }
    true
}

// Whether no key has two slots in segment s's chain, in whose first tier none has: the keys of the tiers after it are searched for. Quick
// where these are few.
pub fn later_once(z: Shape, img: &[u8], s: usize) -> bool
    requires { FirstAlone z img.now s }
    ensures { Decides result (KeysOnce z img.now s) }
{
    // one pass takes every key
    let by = Sharing {
        byHash: false,
        passBits: 0,
    };
    let mut t = layout::read::shared(z, img, s + 1, Header::NextTier) as usize;
    while t != 0 {
        if !tier_lands(z, img, by, 0, s, t) {
            return false;
        }
        t = layout::read::shared(z, img, t, Header::NextTier) as usize;
    }
    true
}
