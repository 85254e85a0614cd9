// What the tiers of an image hold: the rules of slots and entries and those of chunks and counters, tier by tier in one pass.
#![tactic(auto)]

ghost use Rattle.std.specs.Prelude.{◌≡◌, length};
ghost use Rattle.search.specs.Asking.{ChainedTier};
ghost use Rattle.lists.specs.Decide.{Decides};
ghost use Rattle.search.specs.Rules.{KeysOnce};
ghost use Rattle.once.specs.Asking.{FittingChain};
ghost use Rattle.chunks.specs.Asking.{FramedFree};
ghost use Rattle.contents.specs.Contents.{contents_of as contents_contents_of};
ghost use Rattle.contents.specs.Counting.{joined as counting_joined, AtMost, Lists, Covers, ChunksSay, TierTold, TiersSay, ChainSays, AllSay, FreeSays};
ghost use Rattle.contents.specs.Asking.{CanJoin, CanList, CanCover, CanCompare, KnownFirst, WithTiers, FittingChains};

use layout::{Header, Shape};
use search::reach::Run;

// A rule of chunks or counters is broken; a rule of slots or entries is. Where all hold, the answer is the live entries and the marked chunks.
#[derive(Clone, Copy)]
pub enum ContentsError {
    Chunks,
    Entries,
}

// How many slots may be met for each slot of a tier before the keys are compared in another way.
const STEPS: usize = 4;

// Up to a sixteenth of a tier's slots is few.
const FEW: usize = 16;

// What was found of a tier, and whether it is known that no two of its full slots have the same key. The flag stands beside the answer, since
// it is asked for where a rule of chunks or counters is broken, too.
#[derive(Clone, Copy)]
struct Tier {
    contents: Result<(usize, usize), ContentsError>,
    apart: bool,
}

// Two answers as one: a broken rule of slots or entries comes first.
fn joined(
    a: Result<(usize, usize), ContentsError>,
    b: Result<(usize, usize), ContentsError>,
) -> Result<(usize, usize), ContentsError>
    requires { CanJoin a b }
    ensures { result ≡ counting_joined a b }
{
    match a {
        Err(ContentsError::Entries) => Err(ContentsError::Entries),
        Err(ContentsError::Chunks) => match b {
            Err(ContentsError::Entries) => Err(ContentsError::Entries),
            Err(ContentsError::Chunks) => Err(ContentsError::Chunks),
            Ok(_) => Err(ContentsError::Chunks),
        },
        Ok((entries, marked)) => match b {
            Err(e) => Err(e),
            Ok((n, m)) => Ok((entries + n, marked + m)),
        },
    }
}

// Lists the full slots of a tier; how many there are. Each slot is written, and kept only if it is full: a branch would be
// mispredicted at every other slot.
fn list_full(z: Shape, img: &[u8], t: usize, list: &mut [u16]) -> usize
    requires { CanList z img.now t list.old }
    ensures { Lists z img.now t list.new result }
{
    let mut n = 0;
    for j in 0..z.settings.slots {
        list[n] = j as u16;
        if layout::read::slot(z, img, t, j) != 0 {
            n += 1;
        }
    }
    n
}

// Whether it is known that the keys of the listed full slots of a tier differ, where each slot meets what is asked of it alone; nothing
// where one does not. Counts their entries at their chunks. The slots before slot 0, wrapping, are the first run; keys are compared as long as the
// steps last.
fn cover(
    z: Shape,
    img: &[u8],
    s: usize,
    t: usize,
    list: &[u16],
    first: Run,
    steps: usize,
    covered: &mut [u16],
) -> Option<bool>
    requires { CanCover z img.now s t list.now (length list.now) first covered.old }
    ensures { Covers z img.now s t covered.old covered.new result }
{
    let mut run = first;
    let mut left = steps;
    for &full in list {
        let j = full as usize;
        run = search::reach::run_up_to(run, j);
        let (c, n) = search::rules::slot_fits(z, img, s, t, j, run.length)?;
        left = search::rules::steps_left(z, img, s, t, j, left);
        chunks::count(covered, c, n);
    }
    Some(0 < left)
}

// The chunks and counters of a tier with so many full slots, whose entries were counted at their chunks.
fn tier_chunks(
    z: Shape,
    img: &[u8],
    s: usize,
    t: usize,
    full: usize,
    covered: &[u16],
) -> Result<(usize, usize), ContentsError>
    requires { CanCompare z img.now s t full covered.now }
    ensures { ChunksSay z img.now s t result }
{
    let Some(marked) = chunks::marks_agree(z, img, t, covered) else {
        return Err(ContentsError::Chunks);
    };
    if layout::read::shared(z, img, t, Header::EntryCount) != full as u64 {
        return Err(ContentsError::Chunks);
    }
    if !chunks::low_mark_fits(z, img, t) {
        return Err(ContentsError::Chunks);
    }
    Ok((full, marked))
}

// One tier of segment s's chain: its full slots and its marked chunks.
fn tier_contents(z: Shape, img: &[u8], s: usize, t: usize, steps: usize) -> Tier
    requires { ChainedTier z img.now s t }
    ensures { TierTold z img.now s t result }
{
    let end = search::reach::full_at_end(z, img, t);
    if end == z.settings.slots {
        return Tier {
            contents: Err(ContentsError::Entries),
            apart: false,
        };
    }
    let mut list = [0u16; settings::MOST_TIER_SLOTS];
    let full = list_full(z, img, t, &mut list);
    let mut covered = [0u16; settings::MOST_TIER_CHUNKS];
    let first = Run {
        next: 0,
        length: end,
    };
    let Some(apart) = cover(z, img, s, t, &list[..full], first, steps, &mut covered) else {
        return Tier {
            contents: Err(ContentsError::Entries),
            apart: false,
        };
    };
    Tier {
        contents: tier_chunks(z, img, s, t, full, &covered),
        apart: apart,
    }
}

// Whether no key has two slots in segment s's chain. It is known, or not, that those of its first tier differ, and about how many stand
// after it: few of them are searched for.
fn keys_fit(z: Shape, img: &[u8], s: usize, apart: bool, later: usize) -> bool
    requires { KnownFirst z img.now s apart }
    ensures { Decides result (KeysOnce z img.now s) }
{
    if apart {
        if later <= z.settings.slots / FEW {
            return once::slow::later_once(z, img, s);
        }
    }
    once::keys_once(z, img, s)
}

// Of the entries of segment s's chain those after its first tier, by that tier's count.
fn later_entries(z: Shape, img: &[u8], s: usize, entries: usize) -> usize
    requires { FittingChain z img.now s }
{
    let main = layout::read::shared(z, img, s + 1, Header::EntryCount) as usize;
    if main <= entries { entries - main } else { 0 }
}

// What was found of the tiers of segment s's chain, and whether no key has two slots in it.
fn with_keys(
    z: Shape,
    img: &[u8],
    s: usize,
    sum: Result<(usize, usize), ContentsError>,
    apart: bool,
) -> Result<(usize, usize), ContentsError>
    requires { WithTiers z img.now s sum apart }
    ensures { ChainSays z img.now s result }
{
    match sum {
        Err(error) => match error {
            ContentsError::Entries => Err(ContentsError::Entries),
            ContentsError::Chunks => {
                // how many stand after the first tier is not known
                if keys_fit(z, img, s, apart, z.settings.slots) {
                    Err(ContentsError::Chunks)
                } else {
                    Err(ContentsError::Entries)
                }
            }
        },
        Ok((entries, marked)) => {
            let later = later_entries(z, img, s, entries);
            if keys_fit(z, img, s, apart, later) {
                Ok((entries, marked))
            } else {
                Err(ContentsError::Entries)
            }
        }
    }
}

// The tiers of segment s's chain. Most chains are one tier whose slots stand near their start slots: there each key is compared with those
// on its way.
fn chain_contents(z: Shape, img: &[u8], s: usize) -> Result<(usize, usize), ContentsError>
    requires { FittingChain z img.now s }
    ensures { ChainSays z img.now s result }
{
    let mut sum = Ok((0, 0));
    let mut apart = false;
    let mut t = s + 1;
    while t != 0 {
        let steps = if t == s + 1 {
            STEPS * z.settings.slots
        } else {
            0
        };
        let tier = tier_contents(z, img, s, t, steps);
        let found = tier.contents;
        sum = joined(sum, found);
        if t == s + 1 {
            apart = tier.apart;
        }
        t = layout::read::shared(z, img, t, Header::NextTier) as usize;
    }
    if apart {
        if layout::read::shared(z, img, s + 1, Header::NextTier) == 0 {
            return sum;
        }
    }
    with_keys(z, img, s, sum, apart)
}

// The tiers of all chains.
fn chained_contents(z: Shape, img: &[u8]) -> Result<(usize, usize), ContentsError>
    requires { FittingChains z img.now }
    ensures { AllSay z img.now z.settings.segments result × AtMost 4294967296 result }
{
    let mut sum = Ok((0, 0));
    for s in 0..z.settings.segments {
        sum = joined(sum, chain_contents(z, img, s));
    }
    sum
}

// The free tiers, which hold nothing.
fn free_contents(z: Shape, img: &[u8]) -> Result<(usize, usize), ContentsError>
    requires { FramedFree z img.now }
    ensures { FreeSays z img.now result }
{
    if chunks::free_fits(z, img) {
        return Ok((0, 0));
    }
    Err(ContentsError::Chunks)
}

// What the tiers of an image hold whose chains fit.
pub fn contents_of(z: Shape, img: &[u8]) -> Result<(usize, usize), ContentsError>
    requires { FittingChains z img.now }
    ensures { result ≡ contents_contents_of z img.now }
{
    joined(chained_contents(z, img), free_contents(z, img))
}
