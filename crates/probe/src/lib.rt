// The slots of a ring: the next one, and distances.
#![tactic(auto)]

ghost use Rattle.std.specs.Prelude.{◌≡◌, ◌<◌, ◌≤◌};
ghost use Rattle.probe.specs.Ring.{next, dist};

// A place in a search: a slot of a table of `slots` slots.
#[derive(Clone, Copy)]
pub struct Cursor {
    pub slot: usize,
    pub slots: usize,
}

impl Cursor {
    // The next place: upward, wrapping.
    pub fn step(self) -> Cursor
        requires { self.slot < self.slots }
        ensures { (result.slot ≡ next self.slots self.slot) × (result.slots ≡ self.slots) }
    {
        let slot = self.slot;
        let slots = self.slots;
        if slot + 1 < slots {
            Cursor {
                slot: slot + 1,
                slots: slots,
            }
        } else {
            Cursor {
                slot: 0,
                slots: slots,
            }
        }
    }
}

// How many steps upward, wrapping, lead from a to b.
pub fn distance(slots: usize, a: usize, b: usize) -> usize
    requires { (a < slots) × (b < slots) × (slots ≤ 4096) }
    ensures { result ≡ dist slots a b }
{
    if a <= b { b - a } else { b + slots - a }
}
