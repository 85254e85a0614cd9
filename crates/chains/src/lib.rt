// The chains of tiers.
#![tactic(auto)]

ghost use Rattle.std.specs.Prelude.{◌≡◌, suc, ◌+◌, ◌<◌, length, get_or};
ghost use Rattle.lists.specs.Decide.{Decides};
ghost use Rattle.lists.specs.Quantify.{Below};
ghost use Rattle.layout.specs.Frame.{Framed};
ghost use Rattle.chains.specs.Chains.{StandsAt, Stands, chains_of as chains_chains_of};
ghost use Rattle.chains.specs.Walk.{Walks, ChainWalks, AllWalk, Counting, CanWalk, CanWalkChain, CanStand, CanAllStand};

use layout::{Counters, Global, Header, Shape};

// A count for 0 and for each tier.
const COUNTS: usize = layout::MOST_TIERS + 1;

// Follows the links from a tier index on over at most so many extra tiers, and counts each in times: how many there are up to the end, or
// nothing where the walk is lost.
fn walk(z: Shape, img: &[u8], start: usize, most: usize, times: &mut [usize]) -> Option<usize>
    requires { CanWalk z img.now most times.old }
    ensures { Walks z img.now most start times.old times.new result }
{
    let count = layout::tier_count(z);
    let mut t = start;
    for k in 0..most {
        if t == 0 {
            return Some(k);
        }
        if t <= z.settings.segments {
            return None;
        }
        if count < t {
            return None;
        }
        times[t] += 1;
        t = layout::read::shared(z, img, t, Header::NextTier) as usize;
    }
    if t == 0 {
        return Some(most);
    }
    None
}

// Whether a tier's counters say that it is at this place of a segment's chain.
fn stands(z: Shape, img: &[u8], s: usize, order: usize, t: usize, previous: usize) -> bool
    requires { CanStand z img.now t }
    ensures { Decides result (StandsAt z img.now s order t previous) }
{
    let c = Counters::read(z, img, t);
    if c.segment != s as u64 {
        return false;
    }
    if c.order != order as u64 {
        return false;
    }
    if c.previous != previous as u64 {
        return false;
    }
    true
}

// Whether the n tiers of a segment's chain say where they stand.
fn all_stand(z: Shape, img: &[u8], s: usize, n: usize) -> bool
    requires { CanAllStand z img.now s n }
    ensures { Decides result (Below n (Stands z img.now s)) }
{
    let mut t = s + 1;
    let mut previous = 0;
    for i in 0..n {
        if !stands(z, img, s, i, t, previous) {
            return false;
        }
        previous = t;
        t = layout::read::shared(z, img, t, Header::NextTier) as usize;
    }
    true
}

// One segment's chain: its extra tiers are walked and counted, then each tier is asked where it stands.
fn chain_fits(z: Shape, img: &[u8], s: usize, times: &mut [usize]) -> Option<usize>
    requires { CanWalkChain z img.now s times.old }
    ensures { ChainWalks z img.now s times.old times.new result }
{
    let first = layout::read::shared(z, img, s + 1, Header::NextTier) as usize;
    let k = walk(z, img, first, layout::tier_count(z) - 1, times)?;
    if !all_stand(z, img, s, k + 1) {
        return None;
    }
    Some(k)
}

// Every segment's chain: how many extra tiers they have together.
fn all_fit(z: Shape, img: &[u8], times: &mut [usize]) -> Option<usize>
    requires { Counting z img.now times.old 0 }
    ensures { AllWalk z img.now z.settings.segments times.old times.new result }
{
    let mut total = 0;
    for s in 0..z.settings.segments {
        total += chain_fits(z, img, s, times)?;
    }
    Some(total)
}

// Whether each of the n tiers after a tier index was met once.
fn met_once(times: &[usize], after: usize, n: usize) -> bool
    requires { after + n < length times.now }
    ensures { Decides result (Below n (λ j. get_or times.now (suc after + j) 0 ≡ 1)) }
{
    times[after + 1..][..n].iter().all(|met| *met == 1)
}

// The chains of an image whose frame fits: how many tiers are chained and how many free; nothing where a rule is broken.
pub fn chains_of(z: Shape, img: &[u8]) -> Option<(usize, usize)>
    requires { Framed z (length img.now) }
    ensures { result ≡ chains_chains_of z img.now }
{
    let mut times = [0usize; COUNTS];
    let used = all_fit(z, img, &mut times)?;
    let head = layout::read::global(z, img, Global::FirstFree) as usize;
    let free = walk(z, img, head, layout::tier_count(z), &mut times)?;
    if !met_once(&times, z.settings.segments, z.bulks * z.settings.bulkTiers) {
        return None;
    }
    if layout::read::global(z, img, Global::UsedTiers) != used as u64 {
        return None;
    }
    Some((z.settings.segments + used, free))
}
