// Removal of an entry: its chunks are cleared, its slot is emptied, later slots move back.
#![tactic(auto)]

ghost use Rattle.std.specs.Prelude.{◌≡◌, ◌<◌, ◌≤◌};
ghost use Rattle.lists.specs.Decide.{Decides};
ghost use Rattle.settings.specs.Rules.{Valid};
ghost use Rattle.layout.specs.FramedTier.{FramedSlot};
ghost use Rattle.probe.specs.Ring.{dist};
ghost use Rattle.probe.specs.Removal.{remove};
ghost use Rattle.entries.specs.Keys.{start, slot_key as keys_slot_key};
ghost use Rattle.search.specs.Search.{slots_of};
ghost use Rattle.removal.specs.Removal.{remove_at as removal_remove_at};
ghost use Rattle.removal.specs.Asking.{CanRemove};

use layout::Shape;
use probe::Cursor;
use settings::Settings;

// Whether a slot i that holds v stays: its start lies on the stretch after the hole h up to and including i.
fn stays(st: Settings, v: u64, h: usize, i: usize) -> bool
    requires { Valid st × (h < st.slots) × (i < st.slots) }
    ensures { Decides result ((0 < dist st.slots h (start st (keys_slot_key st v))) ×
        (dist st.slots h (start st (keys_slot_key st v)) ≤ dist st.slots h i)) }
{
    let from = entries::keys::start(st, entries::keys::slot_key(st, v));
    let d = probe::distance(st.slots, h, from);
    if d == 0 {
        return false;
    }
    if probe::distance(st.slots, h, i) < d {
        return false;
    }
    true
}

// Empties slot j of a tier: later slots move back into the hole, up to an empty slot.
fn empty_slot(z: Shape, img: &mut [u8], t: usize, j: usize)
    requires { FramedSlot z img.old t j }
    ensures { img.new ≡ remove (slots_of z t) img.old j }
{
    let st = z.settings;
    let first = Cursor {
        slot: j,
        slots: st.slots,
    };
    let mut cursor = first.step();
    let mut hole = j;
    for _left in (0..st.slots).rev() {
        let i = cursor.slot;
        let v = layout::read::slot(z, img, t, i);
        if v == 0 {
            layout::write::put_slot(z, img, t, hole, 0);
            return;
        }
        if !stays(st, v, hole, i) {
            layout::write::put_slot(z, img, t, hole, v);
            hole = i;
        }
        cursor = cursor.step();
    }
    layout::write::put_slot(z, img, t, hole, 0);
}

// Removes the entry of slot j of a tier, whose chunks are the n from c on.
pub fn remove_at(z: Shape, img: &mut [u8], t: usize, j: usize, c: usize, n: usize)
    requires { CanRemove z img.old t j c n }
    ensures { img.new ≡ removal_remove_at z img.old t j c n }
{
    layout::write::put_marks(z, img, t, c, n, 0);
    empty_slot(z, img, t, j);
}
