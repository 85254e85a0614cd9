// Which tier of a chain takes an entry of n chunks, and where: the old entry counts as removed.
ghost use Rattle.std.specs.Prelude.{◌≡◌};
ghost use Rattle.layout.specs.FramedTier.{FramedTier};
ghost use Rattle.chunks.specs.Chunks.{LowMarkFits};
ghost use Rattle.placement.specs.Asking.{CanTest, NoneClearBelow, CanScan, rest_from, CanScanRest};
ghost use Rattle.placement.specs.Runs.{from_lowest, lowest_run as runs_lowest_run, run_in as runs_run_in, first_run as runs_first_run, full_but as runs_full_but, clear_but};

use super::{Old, Run};
use layout::{Header, Shape};

// Whether chunk i of tier t is clear.
fn is_clear(z: Shape, img: &[u8], old: Option<Old>, t: usize, i: usize) -> bool
    requires { CanTest z img.now old t i }
    ensures { result ≡ clear_but z img.now old t i }
{
    if let Some(o) = old {
        if t == o.tier && o.chunk <= i && i < o.chunk + o.chunks {
            return true;
        }
    }
    layout::read::mark(z, img, t, i) == 0
}

// How many slots of tier t are full without the old entry.
fn full_but(z: Shape, img: &[u8], old: Option<Old>, t: usize) -> usize
    requires { FramedTier z img.now t }
    ensures { result ≡ runs_full_but z img.now old t }
{
    let full = entries::read::full_slots(z, img, t);
    if let Some(o) = old {
        if t == o.tier {
            return full.saturating_sub(1);
        }
    }
    full
}

// A chunk of tier t below which none is clear. The old entry's chunks may lie below the lowest free chunk field.
fn scan_from(z: Shape, img: &[u8], old: Option<Old>, t: usize) -> usize
    requires { FramedTier z img.now t × LowMarkFits z img.now t }
    ensures { NoneClearBelow z img.now old t result }
{
    let low = layout::read::shared(z, img, t, Header::LowestFree) as usize;
    if let Some(o) = old {
        if t == o.tier && o.chunk < low {
            return o.chunk;
        }
    }
    low
}

// The lowest run of n clear chunks in tier t; `have` clear chunks end before chunk i.
fn lowest_run(z: Shape, img: &[u8], old: Option<Old>, t: usize, n: usize) -> Run
    requires { CanScan z img.now old t n }
    ensures { result ≡ from_lowest t (runs_lowest_run z (runs_full_but z img.now old) (clear_but z img.now old) t n) }
{
    let mut have = 0;
    for i in scan_from(z, img, old, t)..z.settings.chunks {
        if !is_clear(z, img, old, t, i) {
            have = 0;
            continue;
        }
        have += 1;
        if have == n {
            return Run::At(t, i + 1 - n);
        }
    }
    Run::Nowhere
}

// The run in tier t, unless too many of its slots are full.
pub fn run_in(z: Shape, img: &[u8], old: Option<Old>, t: usize, n: usize) -> Run
    requires { CanScan z img.now old t n }
    ensures { result ≡ runs_run_in z (runs_full_but z img.now old) (clear_but z img.now old) t n }
{
    let full = full_but(z, img, old, t);
    if z.settings.slots < full + 2 {
        return Run::Nowhere;
    }
    lowest_run(z, img, old, t, n)
}

// Of the tiers from the old entry's on, after those that were passed, the first that takes an entry of n chunks. Without one none is left.
pub fn first_run(z: Shape, img: &[u8], old: Option<Old>, passed: usize, n: usize) -> Run
    requires { CanScanRest z img.now old passed n }
    ensures { result ≡ runs_first_run z (runs_full_but z img.now old) (clear_but z img.now old)
        (rest_from z img.now old passed) n }
{
    let Some(from) = old else {
        return Run::Nowhere;
    };
    let most = layout::tier_count(z);
    let mut t = from.tier;
    for _ in passed..most {
        if t == 0 {
            return Run::Nowhere;
        }
        if let Run::At(t, c) = run_in(z, img, old, t, n) {
            return Run::At(t, c);
        }
        t = layout::read::shared(z, img, t, Header::NextTier) as usize;
    }
    Run::Nowhere
}
