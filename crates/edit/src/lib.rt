// Removal and store of a key in an image that was accepted.
#![tactic(auto)]

ghost use Rattle.std.specs.Prelude.{◌≡◌, length, IfSome};
ghost use Rattle.layout.specs.Frame.{Framed};
ghost use Rattle.sound.specs.Sound.{SoundImage};
ghost use Rattle.unlinking.specs.Asking.{CanUnlinkEmpty};
ghost use Rattle.edit.specs.declared.Policy.TheVariants.{Tight};
ghost use Rattle.edit.specs.Edits.{find, remove_image};
ghost use Rattle.edit.specs.Replaced.{old_of, without_old, old_tier as replaced_old_tier, old_home, replaced_old, extended_old, old_on_the_spot, OldFits, is_there, Stores, Storable, Walks, Replaces, Extends};

use layout::{Global, Shape};
use placement::walk::Walk;
use placement::{Old, Run};
use search::Found;

// How a store replaces an entry: where it stands, if the new one takes as many chunks; or always as if it were removed first.
// An enum and no closure, which would be no plainer: the theorems speak of it as a value.
#[derive(Clone, Copy)]
pub enum Policy {
    OnTheSpot,
    Tight,
}

// The entry with the whole key, if there is one.
fn old_entry(z: Shape, img: &[u8], key: &[u8]) -> Option<Old>
    requires { SoundImage z img.now }
    ensures { result ≡ old_of (find z img.now key.now) }
{
    let Found::At(t, j) = search::search(z, img, key) else {
        return None;
    };
    Some(Old::at(z, img, t, j))
}

// Removes it.
fn remove_old(z: Shape, img: &mut [u8], old: Option<Old>)
    requires { Framed z (length img.old) × IfSome old (OldFits z) }
    ensures { img.new ≡ without_old z img.old old }
{
    if let Some(o) = old {
        removal::remove_at(z, img, o.tier, o.slot, o.chunk, o.chunks);
    }
}

// Its tier.
fn old_tier(old: Option<Old>) -> Option<usize>
    ensures { result ≡ replaced_old_tier old }
{
    old.map(|o| o.tier)
}

// The tier that it leaves goes home, if it is empty now.
fn old_tier_home(z: Shape, img: &mut [u8], old: Option<Old>)
    requires { IfSome old (λ o. CanUnlinkEmpty z img.old o.tier) }
    ensures { img.new ≡ old_home z img.old old }
{
    if let Some(o) = old {
        unlinking::unlink_empty(z, img, o.tier);
    }
}

// Removes the entry with the whole key; whether there was one.
pub fn remove(z: Shape, img: &mut [u8], key: &[u8]) -> bool
    requires { SoundImage z img.old }
    ensures { (result ≡ is_there (find z img.old key.now)) ×
        (img.new ≡ remove_image z img.old key.now) }
{
    let Some(old) = old_entry(z, img, key) else {
        return false;
    };
    remove_old(z, img, Some(old));
    counters::recount(z, img, old.tier);
    unlinking::unlink_empty(z, img, old.tier);
    true
}

// The new entry goes to tier t, in the chunks from c on. The counters follow when all else is written; then the old tier goes home, if
// it is empty now.
fn replace(
    z: Shape,
    img: &mut [u8],
    old: Option<Old>,
    t: usize,
    c: usize,
    slot: Option<usize>,
    key: &[u8],
    value: &[u8],
)
    requires { Replaces z img.old old t c slot key.now value.now }
    ensures { img.new ≡ replaced_old z img.old old t c key.now value.now }
{
    remove_old(z, img, old);
    placement::place::place_at(z, img, t, c, slot, key, value);
    counters::settle(z, img, t, old_tier(old));
    old_tier_home(z, img, old);
}

// The same where the first free tier t joins segment s's chain. The old tier has another entry: without one it would have taken this one.
fn extend(z: Shape, img: &mut [u8], old: Option<Old>, s: usize, t: usize, key: &[u8], value: &[u8])
    requires { Extends z img.old old s t key.now value.now }
    ensures { img.new ≡ extended_old z img.old old s t key.now value.now }
{
    remove_old(z, img, old);
    joining::join(z, img, s);
    placement::place::place_at(z, img, t, 0, None, key, value);
    counters::settle(z, img, t, old_tier(old));
}

// The old entry, if one of n chunks takes its place.
fn on_the_spot(policy: Policy, old: Option<Old>, n: usize) -> Option<Old>
    ensures { result ≡ old_on_the_spot policy old n }
{
    match policy {
        Policy::Tight => None,
        Policy::OnTheSpot => old.filter(|o| o.chunks == n),
    }
}

// The tight store, after the walk: whether it found room. Nothing is written before that is known.
fn store_tight(z: Shape, img: &mut [u8], w: Walk, n: usize, key: &[u8], value: &[u8]) -> bool
    requires { Walks z img.old key.now value.now w n }
    ensures { Stores Tight z img.old key.now value.now result img.new }
{
    let place = placement::walk::place_for(z, img, w, n);
    let scan = place.run;
    let Run::At(t, c) = scan else {
        let head = layout::read::global(z, img, Global::FirstFree) as usize;
        if head == 0 {
            return false;
        }
        let s = entries::keys::segment_of_hash(z.settings, xxh64::xxh64(key));
        extend(z, img, place.old, s, head, key, value);
        return true;
    };
    replace(z, img, place.old, t, c, place.slot, key, value);
    true
}

// Stores a record under a key; whether there was room. Key and value are two parameters, as the public `store` has them.
pub fn store(z: Shape, img: &mut [u8], key: &[u8], value: &[u8], policy: Policy) -> bool
    requires { Storable z img.old key.now value.now }
    ensures { Stores policy z img.old key.now value.now result img.new }
{
    let n = entries::chunks_for(z.settings, key.len(), value.len());
    let w = placement::walk::walk_chain(z, img, key, n);
    let Some(spot) = on_the_spot(policy, w.old, n) else {
        return store_tight(z, img, w, n, key, value);
    };
    placement::place::write_from(z, img, spot.tier, spot.chunk, key, value);
    true
}
