// A tier that an edit has emptied goes home.
#![tactic(auto)]

ghost use Rattle.std.specs.Prelude.{◌++◌, ◌≡◌};
ghost use Rattle.layout.specs.Tiers.{tiers};
ghost use Rattle.layout.specs.Places.{puts};
ghost use Rattle.chains.specs.Chains.{follow};
ghost use Rattle.unlinking.specs.Unlinking.{nearer, comes_after, unlink as unlinking_unlink, unlink_empty as unlinking_unlink_empty};
ghost use Rattle.unlinking.specs.Asking.{CanLower, CanUnlink, CanUnlinkEmpty};

use layout::{Counter, Counters, Global, Header, Shape};

// The tiers of a chain from the first of these on are one place nearer the main tier.
fn lower_orders(z: Shape, img: &mut [u8], first: usize)
    requires { CanLower z img.old first }
    ensures { img.new ≡ puts z img.old (nearer z img.old (follow z img.old (tiers z) first)) }
{
    let mut t = first;
    while t != 0 {
        let next = layout::read::shared(z, img, t, Header::NextTier) as usize;
        let counters = Counters::read(z, img, t);
        layout::write::put_counter(z, img, t, Counter::Order, counters.order - 1);
        t = next;
    }
}

// The same, and the first of them, if there is one, comes after tier p.
fn close_up(z: Shape, img: &mut [u8], first: usize, p: u64)
    requires { CanLower z img.old first }
    ensures { img.new ≡ puts z img.old
        (nearer z img.old (follow z img.old (tiers z) first)
        ++ comes_after z img.old p (follow z img.old (tiers z) first)) }
{
    lower_orders(z, img, first);
    if first == 0 {
        return;
    }
    layout::write::put_counter(z, img, first, Counter::Previous, p);
}

// Tier t leaves its chain and becomes the first free tier. What is asked of t is read before the first write.
fn unlink(z: Shape, img: &mut [u8], t: usize)
    requires { CanUnlink z img.old t }
    ensures { img.new ≡ unlinking_unlink z img.old t }
{
    let next = layout::read::shared(z, img, t, Header::NextTier);
    let counters = Counters::read(z, img, t);
    let free = layout::read::global(z, img, Global::FirstFree);
    let used = layout::read::global(z, img, Global::UsedTiers);
    close_up(z, img, next as usize, counters.previous);
    layout::write::put_shared(z, img, counters.previous as usize, Header::NextTier, next);
    layout::write::put_shared(z, img, t, Header::NextTier, free);
    layout::write::put_global(z, img, Global::FirstFree, t as u64);
    layout::write::put_global(z, img, Global::UsedTiers, used - 1);
}

// It does so if it is an extra tier without entries.
pub fn unlink_empty(z: Shape, img: &mut [u8], t: usize)
    requires { CanUnlinkEmpty z img.old t }
    ensures { img.new ≡ unlinking_unlink_empty z img.old t }
{
    if t <= z.settings.segments {
        return;
    }
    if layout::read::shared(z, img, t, Header::EntryCount) != 0 {
        return;
    }
    unlink(z, img, t);
}
