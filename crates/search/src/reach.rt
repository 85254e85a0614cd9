// How full slots stand together in a tier: whether each is reached from its start slot.
ghost use Rattle.std.specs.Prelude.{◌≡◌, ◌≤◌, ◌<◌};
ghost use Rattle.layout.specs.FramedTier.{FramedTier, FramedSlot};
ghost use Rattle.probe.specs.Ring.{dist};
ghost use Rattle.search.specs.Rules.{start_at};
ghost use Rattle.search.specs.Reach.{EndsFull, RunOn};

use layout::Shape;

// The full slots without a gap before slot `next`, wrapping.
#[derive(Clone, Copy)]
pub struct Run {
    pub next: usize,
    pub length: usize,
}

// How many slots at the end of a tier are full: all of them where none is empty.
pub fn full_at_end(z: Shape, img: &[u8], t: usize) -> usize
    requires { FramedTier z img.now t }
    ensures { EndsFull z img.now t result }
{
    for n in 0..z.settings.slots {
        if layout::read::slot(z, img, t, z.settings.slots - 1 - n) == 0 {
            return n;
        }
    }
    z.settings.slots
}

// The run up to and including the full slot j, the first from `next` on.
pub fn run_up_to(run: Run, j: usize) -> Run
    requires { (j < 4096) × (run.length ≤ 4096) }
    ensures { RunOn run j result }
{
    if j == run.next {
        return Run {
            next: j + 1,
            length: run.length + 1,
        };
    }
    Run {
        next: j + 1,
        length: 1,
    }
}

// How far the full slot j stands from its start slot.
pub fn displaced(z: Shape, img: &[u8], t: usize, j: usize) -> usize
    requires { FramedSlot z img.now t j }
    ensures { result ≡ dist z.settings.slots (start_at z img.now t j) j }
{
    let st = z.settings;
    let lookup = entries::keys::slot_key(st, layout::read::slot(z, img, t, j));
    probe::distance(st.slots, entries::keys::start(st, lookup), j)
}
