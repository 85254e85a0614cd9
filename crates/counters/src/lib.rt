// What edits keep: the counters of a tier, counted anew.
#![tactic(auto)]

ghost use Rattle.std.specs.Prelude.{◌≡◌, length};
ghost use Rattle.layout.specs.Tiers.{IsTier};
ghost use Rattle.layout.specs.Frame.{Framed};
ghost use Rattle.counters.specs.Recount.{recount as recount_recount, settle as recount_settle, touched_with};
ghost use Rattle.counters.specs.Asking.{Settles};

use layout::{Header, Shape};

// Writes the entry count and the lowest free chunk of a tier as its slots and bits have them.
pub fn recount(z: Shape, img: &mut [u8], t: usize)
    requires { Framed z (length img.old) × IsTier z t }
    ensures { img.new ≡ recount_recount z img.old t }
{
    let n = entries::read::full_slots(z, img, t);
    let low = chunks::lowest_clear(z, img, t);
    layout::write::put_shared(z, img, t, Header::EntryCount, n as u64);
    layout::write::put_shared(z, img, t, Header::LowestFree, low as u64);
}

// The counters of the tiers that an edit changed: t, and another tier if there is one.
pub fn settle(z: Shape, img: &mut [u8], t: usize, other: Option<usize>)
    requires { Settles z (length img.old) t other }
    ensures { img.new ≡ recount_settle z img.old (touched_with t other) }
{
    recount(z, img, t);
    let Some(other) = other else {
        return;
    };
    if other == t {
        return;
    }
    recount(z, img, other);
}
