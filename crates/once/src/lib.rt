// Whether no key has two slots in a segment's chain. The full slots are met in passes: a pass takes those whose keys have its number, and
// keeps references to those that it met in a table, by which a key is found again.
#![tactic(auto)]

pub mod slow;
pub mod table;

ghost use Rattle.std.specs.Prelude.{◌≡◌, false, ◌+◌, ◌≤◌, ◌<◌};
ghost use Rattle.lists.specs.Decide.{Decides};
ghost use Rattle.settings.specs.Rules.{PowerOfTwo};
ghost use Rattle.search.specs.Rules.{KeysOnce};
ghost use Rattle.once.specs.Refs.{InPass};
ghost use Rattle.once.specs.Walk.{NextInPass, MetUpTo, MetThrough, MetAll, MetSays, PassSays};
ghost use Rattle.once.specs.Asking.{FittingChain, ReadChain, ReadPass, ReadFrom, ReadSlot, CanMeet, CanWalk, CanPass};

use gather::Stopped;
use layout::{Header, Shape};

// How the full slots of a chain are shared out: a number of the key gives the pass in its low bits and the place in the table in those
// above. The number is the lookup key, or where that has too few bits more of the hash:
// a flag says which, since the definitions speak of it and a closure for the number would be no plainer.
#[derive(Clone, Copy)]
pub struct Sharing {
    pub byHash: bool,
    pub passBits: usize,
}

// A pass of the large table takes half as many entries as there are places, or fewer; the small one serves short chains.
const LARGE_BITS: usize = 14;

const SMALL_BITS: usize = 9;

const IN_A_PASS: usize = 8192;

const IN_A_SMALL_PASS: usize = 128;

// Whether slot j of tier t is full and pass p takes its key.
fn in_pass(z: Shape, img: &[u8], by: Sharing, p: u64, s: usize, t: usize, j: usize) -> bool
    requires { ReadSlot z img.now by s t j }
    ensures { Decides result (InPass z img.now by p t j) }
{
    let v = layout::read::slot(z, img, t, j);
    if v == 0 {
        return false;
    }
    entries::keys::low_bits(table::number_at(z, img, by, s, t, j, v), by.passBits) == p
}

// The same where the lookup key is the number: no entry is read. A test of its own, since in one loop with the hash the check of 16 MiB of full
// tiers took six times as long: only in a small loop is the tier's offset computed once.
fn lookup_in_pass(z: Shape, img: &[u8], by: Sharing, p: u64, s: usize, t: usize, j: usize) -> bool
    requires { ReadSlot z img.now by s t j × (by.byHash ≡ false) }
    ensures { Decides result (InPass z img.now by p t j) }
{
    let v = layout::read::slot(z, img, t, j);
    if entries::keys::low_bits(entries::keys::slot_key(z.settings, v), by.passBits) != p {
        return false;
    }
    if v == 0 {
        return false;
    }
    true
}

// The first slot of tier t from `from` on whose key pass p takes, by the lookup keys; the number of slots where there is none. A loop of its own:
// as a `find` of the range the compiler computes the tier's offset, with its division, anew for each slot.
fn next_by_lookup(
    z: Shape,
    img: &[u8],
    by: Sharing,
    p: u64,
    s: usize,
    t: usize,
    from: usize,
) -> usize
    requires { ReadFrom z img.now by s t from × (by.byHash ≡ false) }
    ensures { NextInPass z img.now by p t from result }
{
    for j in from..z.settings.slots {
        if lookup_in_pass(z, img, by, p, s, t, j) {
            return j;
        }
    }
    z.settings.slots
}

// The same by the number that the pass goes by.
pub fn next_in_pass(
    z: Shape,
    img: &[u8],
    by: Sharing,
    p: u64,
    s: usize,
    t: usize,
    from: usize,
) -> usize
    requires { ReadFrom z img.now by s t from }
    ensures { NextInPass z img.now by p t from result }
{
    if by.byHash {
        return (from..z.settings.slots)
            .find(|j| in_pass(z, img, by, p, s, t, *j))
            .unwrap_or(z.settings.slots);
    }
    next_by_lookup(z, img, by, p, s, t, from)
}

// Slot j of tier t is looked up among those that pass p met before, and put into the table, where `left` more may be put in: how many then
// still may.
fn meet(
    z: Shape,
    img: &[u8],
    by: Sharing,
    p: u64,
    s: usize,
    t: usize,
    j: usize,
    table: &mut [u32],
    left: usize,
) -> Result<usize, Stopped>
    requires { CanMeet z img.now by p s t j table.old left }
    ensures { MetSays z img.now by s (MetUpTo z img.now by p s t (j + 1)) table.new result }
{
    let at = table::seek(z, img, by, s, t, j, table);
    if table[at] != 0 {
        return Err(Stopped::Again);
    }
    if left == 0 {
        return Err(Stopped::Full);
    }
    table[at] = (t * z.settings.slots + j) as u32;
    Ok(left - 1)
}

// The slots of tier t.
fn pass_tier(
    z: Shape,
    img: &[u8],
    by: Sharing,
    p: u64,
    s: usize,
    t: usize,
    table: &mut [u32],
    left: usize,
) -> Result<usize, Stopped>
    requires { CanWalk z img.now by p s t table.old left }
    ensures { MetSays z img.now by s (MetThrough z img.now by p s t) table.new result }
{
    let mut rest = left;
    let mut j = next_in_pass(z, img, by, p, s, t, 0);
    while j < z.settings.slots {
        rest = meet(z, img, by, p, s, t, j, table, rest)?;
        j = next_in_pass(z, img, by, p, s, t, j + 1);
    }
    Ok(rest)
}

// The tiers of segment s's chain.
fn pass_chain(
    z: Shape,
    img: &[u8],
    by: Sharing,
    p: u64,
    s: usize,
    table: &mut [u32],
) -> Result<usize, Stopped>
    requires { CanPass z img.now by s table.old }
    ensures { MetSays z img.now by s (MetAll z img.now by p s) table.new result }
{
    // a quarter of the places stays empty, so that searches are short
    let mut rest = table.len() / 4 * 3;
    let mut t = s + 1;
    while t != 0 {
        rest = pass_tier(z, img, by, p, s, t, table, rest)?;
        t = layout::read::shared(z, img, t, Header::NextTier) as usize;
    }
    Ok(rest)
}

// Whether no two slots of segment s's chain that pass p takes have the same key. The table is empty.
fn pass(z: Shape, img: &[u8], by: Sharing, p: u64, s: usize, table: &mut [u32]) -> bool
    requires { CanPass z img.now by s table.old }
    ensures { PassSays z img.now by p s result }
{
    match pass_chain(z, img, by, p, s, table) {
        Ok(_) => true,
        Err(Stopped::Again) => false,
        Err(Stopped::Full) => slow::chain_lands(z, img, by, p, s),
    }
}

// The same with an empty table of N places.
fn fresh_pass<const N: usize>(z: Shape, img: &[u8], by: Sharing, p: u64, s: usize) -> bool
    requires { ReadPass z img.now by s × (1 < N) × PowerOfTwo N × (N ≤ 65536) }
    ensures { PassSays z img.now by p s result }
{
    let mut table = [0u32; N];
    pass(z, img, by, p, s, &mut table)
}

// The full slots of segment s's chain: how many entries the passes share.
fn entries_in(z: Shape, img: &[u8], s: usize) -> usize
    requires { FittingChain z img.now s }
    ensures { result ≤ 4194304 }
{
    let mut n = 0;
    let mut t = s + 1;
    while t != 0 {
        n = n + entries::read::full_slots(z, img, t);
        t = layout::read::shared(z, img, t, Header::NextTier) as usize;
    }
    n
}

// The bits of a pass's number for n entries, at most as many as the longest chain needs. Any number of passes is right.
fn pass_bits(n: usize) -> usize
    ensures { result ≤ 9 }
{
    (0..9).find(|bits| n <= IN_A_PASS << *bits).unwrap_or(9)
}

// How n entries are shared out. The lookup key does where it has bits enough for the pass and the place in the table.
fn share_out(z: Shape, n: usize) -> Sharing
    ensures { result.passBits ≤ 9 }
{
    let bits = pass_bits(n);
    let place = if n <= IN_A_SMALL_PASS {
        SMALL_BITS
    } else {
        LARGE_BITS
    };
    Sharing {
        byHash: z.settings.keyBits < place + bits,
        passBits: bits,
    }
}

// Pass p, with the table that n entries need.
fn one_pass(z: Shape, img: &[u8], by: Sharing, p: u64, s: usize, n: usize) -> bool
    requires { ReadPass z img.now by s }
    ensures { PassSays z img.now by p s result }
{
    if n <= IN_A_SMALL_PASS {
        return fresh_pass::<512>(z, img, by, p, s);
    }
    fresh_pass::<16384>(z, img, by, p, s)
}

// Whether no key has two slots in segment s's chain.
pub fn keys_once(z: Shape, img: &[u8], s: usize) -> bool
    requires { ReadChain z img.now s }
    ensures { Decides result (KeysOnce z img.now s) }
{
    let n = entries_in(z, img, s);
    let by = share_out(z, n);
    let passes = 1u64 << by.passBits;
    for p in 0..passes {
        if !one_pass(z, img, by, p, s, n) {
            return false;
        }
    }
    true
}
