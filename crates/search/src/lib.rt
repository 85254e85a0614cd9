// The search for a key, and the rules of slots and entries.
#![tactic(auto)]

pub mod reach;
pub mod rules;

ghost use Rattle.std.specs.Prelude.{◌≡◌};
ghost use Rattle.lists.specs.Decide.{Decides};
ghost use Rattle.search.specs.Search.{hits as search_hits, sought_in, search as search_search};
ghost use Rattle.search.specs.Landing.{FoundIn};
ghost use Rattle.search.specs.Asking.{Seeks, FramedChains, SoughtAt};

use layout::{Header, Shape};
use probe::Cursor;

// Where the search for a key ends in one tier: at the slot that holds it, or at an empty slot.
// Both are ends of a search and neither is an error, so a Result would name one of them wrongly.
#[derive(Clone, Copy)]
pub enum Sought {
    Holds(usize),
    Empty(usize),
}

// Where the search for a key ended: at the tier and slot that hold it, or at the empty slot of the last tier.
// Both are ends of a search and neither is an error, so a Result would name one of them wrongly.
#[derive(Clone, Copy)]
pub enum Found {
    At(usize, usize),
    Absent(usize, usize),
}

// Whether a full slot of tier t that holds v stands for the key: never by the lookup key alone.
fn hits(z: Shape, img: &[u8], key: &[u8], lookup: u64, t: usize, v: u64) -> bool
    requires { Seeks z img.now key.now lookup t }
    ensures { result ≡ search_hits z img.now key.now t v }
{
    let st = z.settings;
    if entries::keys::slot_key(st, v) != lookup {
        return false;
    }
    let Some(e) = entries::read::stored(z, img, t, entries::keys::slot_chunk(st, v)) else {
        return entries::read::same_key(img, 0, 0, key);
    };
    entries::read::same_key(img, e.keyAt, e.keyLength, key)
}

// The search in tier t.
pub fn seek(z: Shape, img: &[u8], key: &[u8], lookup: u64, t: usize) -> Sought
    requires { Seeks z img.now key.now lookup t }
    ensures { result ≡ sought_in z img.now key.now t }
{
    let st = z.settings;
    let from = entries::keys::start(st, lookup);
    let mut cursor = Cursor {
        slot: from,
        slots: st.slots,
    };
    for _ in 0..st.slots {
        let v = layout::read::slot(z, img, t, cursor.slot);
        if v == 0 {
            return Sought::Empty(cursor.slot);
        }
        if hits(z, img, key, lookup, t, v) {
            return Sought::Holds(cursor.slot);
        }
        cursor = cursor.step();
    }
    // no slot is empty, and none stands for the key
    Sought::Holds(cursor.slot)
}

// The search for a key through the chain of its segment.
pub fn search(z: Shape, img: &[u8], key: &[u8]) -> Found
    requires { FramedChains z img.now }
    ensures { result ≡ search_search z img.now key.now }
{
    let h = xxh64::xxh64(key);
    let lookup = entries::keys::lookup_of_hash(z.settings, h);
    let most = layout::tier_count(z);
    let main = entries::keys::segment_of_hash(z.settings, h) + 1;
    let mut t = main;
    let mut tier = 0;
    let mut slot = 0;
    for _ in 0..most {
        if t == 0 {
            return Found::Absent(tier, slot);
        }
        let sought = seek(z, img, key, lookup, t);
        match sought {
            Sought::Holds(j) => {
                return Found::At(t, j);
            }
            Sought::Empty(j) => {
                tier = t;
                slot = j;
            }
        }
        t = layout::read::shared(z, img, t, Header::NextTier) as usize;
    }
    Found::Absent(tier, slot)
}

// Whether that search, for a key of segment s that is in tier t, comes to tier t: whether it ends empty in each tier before.
fn comes_to(z: Shape, img: &[u8], key: &[u8], lookup: u64, s: usize, t: usize) -> bool
    requires { SoughtAt z img.now key.now lookup s t }
    ensures { Decides result (FoundIn z img.now key.now t) }
{
    let most = layout::tier_count(z);
    let mut u = s + 1;
    for _ in 0..most {
        if u == t {
            return true;
        }
        if u == 0 {
            return false;
        }
        let Sought::Empty(_) = seek(z, img, key, lookup, u) else {
            return false;
        };
        u = layout::read::shared(z, img, u, Header::NextTier) as usize;
    }
    false
}
