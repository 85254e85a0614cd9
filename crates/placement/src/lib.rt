// Placement of an entry.
#![tactic(auto)]

pub mod place;
pub mod runs;
pub mod walk;

ghost use Rattle.std.specs.Prelude.{◌≡◌};
ghost use Rattle.layout.specs.FramedTier.{FramedSlot};
ghost use Rattle.placement.specs.OldEntry.{old_at};

use layout::Shape;

// Where an entry goes: the tier and its first chunk there, or no tier takes it.
// No Option: a rule of the project names the form `let Run::At(..) = ..` (docs/DECISIONS.md, Forms that 01 names).
#[derive(Clone, Copy)]
pub enum Run {
    At(usize, usize),
    Nowhere,
}

// The entry that a store replaces: its tier, its slot and its chunks.
#[derive(Clone, Copy)]
pub struct Old {
    pub tier: usize,
    pub slot: usize,
    pub chunk: usize,
    pub chunks: usize,
}

impl Old {
    // The entry of slot j of tier t.
    pub fn at(z: Shape, img: &[u8], t: usize, j: usize) -> Old
        requires { FramedSlot z img.now t j }
        ensures { result ≡ old_at z img.now t j }
    {
        let e = entries::read::entry_at(z, img, t, j);
        Old {
            tier: t,
            slot: j,
            chunk: entries::read::chunk_of(z, img, t, j),
            chunks: entries::chunks_for(z.settings, e.keyLength, e.valueLength),
        }
    }
}
