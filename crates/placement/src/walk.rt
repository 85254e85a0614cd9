// Where an entry goes, found in one walk along the chain of its key.
ghost use Rattle.std.specs.Prelude.{None};
ghost use Rattle.placement.specs.Asking.{CanScan, CanScanRest, CanWalk};
ghost use Rattle.placement.specs.Walking.{CandidateAfter, Walked, PlaceAfter};

use super::{Old, Run};
use layout::{Header, Shape};
use search::Sought;

// Of the tiers that the search has passed, the first that takes the entry: its first chunk there, and the empty slot that ended the search.
#[derive(Clone, Copy)]
pub struct Candidate {
    tier: usize,
    chunk: usize,
    slot: usize,
}

// The walk up to the tier that holds the key: the entry there, how many tiers it has passed, and the candidate in those.
#[derive(Clone, Copy)]
pub struct Walk {
    pub old: Option<Old>,
    pub passed: usize,
    pub candidate: Option<Candidate>,
}

// Where the entry goes, and the entry that it replaces. The slot is known in a tier that the search has passed.
#[derive(Clone, Copy)]
pub struct EntryPlace {
    pub old: Option<Old>,
    pub run: Run,
    pub slot: Option<usize>,
}

// The candidate, or else tier t, where the search ended at slot j, if that takes the entry.
fn or_tier(
    z: Shape,
    img: &[u8],
    candidate: Option<Candidate>,
    t: usize,
    j: usize,
    n: usize,
) -> Option<Candidate>
    requires { CanScan z img.now None t n }
    ensures { CandidateAfter z img.now n candidate t j result }
{
    if let Some(first) = candidate {
        return Some(first);
    }
    let Run::At(tier, chunk) = super::runs::run_in(z, img, None, t, n) else {
        return None;
    };
    Some(Candidate {
        tier,
        chunk,
        slot: j,
    })
}

// The walk for an entry of n chunks.
pub fn walk_chain(z: Shape, img: &[u8], key: &[u8], n: usize) -> Walk
    requires { CanWalk z img.now key.now n }
    ensures { Walked z img.now key.now n result }
{
    let h = xxh64::xxh64(key);
    let lookup = entries::keys::lookup_of_hash(z.settings, h);
    let most = layout::tier_count(z);
    let mut t = entries::keys::segment_of_hash(z.settings, h) + 1;
    let mut candidate = None;
    for k in 0..most {
        if t == 0 {
            return Walk {
                old: None,
                passed: k,
                candidate,
            };
        }
        match search::seek(z, img, key, lookup, t) {
            Sought::Holds(j) => {
                return Walk {
                    old: Some(Old::at(z, img, t, j)),
                    passed: k,
                    candidate,
                };
            }
            Sought::Empty(j) => {
                candidate = or_tier(z, img, candidate, t, j, n);
            }
        }
        t = layout::read::shared(z, img, t, Header::NextTier) as usize;
    }
    Walk {
        old: None,
        passed: most,
        candidate,
    }
}

// Where an entry of n chunks goes after the walk: the old entry counts as removed.
pub fn place_for(z: Shape, img: &[u8], w: Walk, n: usize) -> EntryPlace
    requires { CanScanRest z img.now w.old w.passed n }
    ensures { PlaceAfter z img.now n w result }
{
    if let Some(first) = w.candidate {
        return EntryPlace {
            old: w.old,
            run: Run::At(first.tier, first.chunk),
            slot: Some(first.slot),
        };
    }
    EntryPlace {
        old: w.old,
        run: super::runs::first_run(z, img, w.old, w.passed, n),
        slot: None,
    }
}
