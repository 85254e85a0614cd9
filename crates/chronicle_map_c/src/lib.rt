// The calls for C and Rust (include/chronicle_map.h). Each returns the number of its answer; what it
// tells beside that goes to an array of the caller's, which is written on every call.
// Calls that differ in one word are two because C has two names for them.
#![tactic(auto)]

ghost use Rattle.std.specs.Prelude.{◌≡◌, ◌∷◌, MatchResult};
ghost use Rattle.xxh64.specs.Hash.{xxh64 as hash_xxh64};
ghost use Rattle.edit.specs.declared.Policy.TheVariants.{OnTheSpot, Tight};
ghost use Rattle.chronicle_map.specs.Calls.{lookup_numbers};
ghost use Rattle.pairs.specs.Delays.{Reply, asked_reply};
ghost use Rattle.chronicle_map_c.specs.Numbers.{check_answer, lookup_answer, quick_lookup_answer, entry_answer, delay_answer, quick_delay_answer, store_answer, store_leaves, remove_answer, remove_leaves, grow_answer, grow_leaves, set_delay_answer, set_delay_leaves};

use chronicle_map::Located;
use image::numbers::row_numbers;
use image::{Outcome, Stage};
use pairs::AskError;

// An edit's number: 0 where it is done, and else the error's.
fn edit_number<E: Into<u32>>(answer: Result<(), E>) -> u32
    ensures { MatchResult answer (λ _. result ≡ 0) (λ e. E.converts e result) }
{
    match answer {
        Ok(()) => 0,
        Err(e) => e.into(),
    }
}

// A lookup's number; its other numbers go to the array.
fn tell_place(located: Result<Located, Stage>, place: &mut [u64; 4]) -> u32
    ensures { result ∷ place.new ≡ lookup_numbers located }
{
    match located {
        Ok(Located::Found(p)) => {
            *place = [
                p.offset as u64,
                p.length as u64,
                p.tier as u64,
                p.slot as u64,
            ];
            0
        }
        Ok(Located::Absent(e)) => {
            *place = [0, 0, e.tier as u64, e.slot as u64];
            1
        }
        Err(stage) => {
            *place = [0; 4];
            u32::from(stage)
        }
    }
}

// An ask's number; its delay goes to the caller's, 0 where there is none.
fn tell_delay(asked: Result<Option<i32>, AskError>, delay: &mut i32) -> u32
    ensures { record { number = result; delay = delay.new } ≡ asked_reply asked }
{
    match asked {
        Ok(Some(d)) => {
            *delay = d;
            0
        }
        Ok(None) => {
            *delay = 0;
            1
        }
        Err(e) => {
            *delay = 0;
            u32::from(e)
        }
    }
}

// The check. The array: live entries, marked chunks, chained tiers, free tiers.
#[unsafe(no_mangle)]
pub extern "C" fn chronicle_map_check(block: &[u8], img: &[u8], counts: &mut [u64; 4]) -> u32
    ensures { result ∷ counts.new ≡ check_answer block.now img.now }
{
    let verdict = chronicle_map::check(block, img);
    let outcome = verdict.outcome;
    match outcome {
        Outcome::Accepted(c) => {
            *counts = [
                c.entries as u64,
                c.chunks as u64,
                c.tiers as u64,
                c.free as u64,
            ];
            0
        }
        Outcome::Refused(stage) => {
            *counts = [0; 4];
            u32::from(stage)
        }
    }
}

// A lookup. The array: where the record starts in the image, its length, and its entry's tier and slot; of
// an absent key the tier and the slot at which the search ended.
#[unsafe(no_mangle)]
pub extern "C" fn chronicle_map_lookup(
    block: &[u8],
    img: &[u8],
    key: &[u8],
    place: &mut [u64; 4],
) -> u32
    ensures { result ∷ place.new ≡ lookup_answer block.now img.now key.now }
{
    tell_place(chronicle_map::lookup(block, img, key), place)
}

// The same without a check of the whole image: settings, frame and key are tested, and what the walk for the key meets.
#[unsafe(no_mangle)]
pub extern "C" fn chronicle_map_quick_lookup(
    block: &[u8],
    img: &[u8],
    key: &[u8],
    place: &mut [u64; 4],
) -> u32
    ensures { result ∷ place.new ≡ quick_lookup_answer block.now img.now key.now }
{
    tell_place(quick::quick_lookup(block, img, key), place)
}

// Stores a record under a key, or replaces the one that is there: on the spot where the new entry takes as many chunks.
#[unsafe(no_mangle)]
pub extern "C" fn chronicle_map_store(block: &[u8], img: &mut [u8], key: &[u8], value: &[u8]) -> u32
    ensures number { result ≡ store_answer OnTheSpot block.now img.old key.now value.now }
    ensures image { img.new ≡ store_leaves OnTheSpot block.now img.old key.now value.now }
{
    edit_number(chronicle_map::store(block, img, key, value))
}

// The tight store: the new entry always goes to the lowest run that takes it once the old one is out.
#[unsafe(no_mangle)]
pub extern "C" fn chronicle_map_store_tight(
    block: &[u8],
    img: &mut [u8],
    key: &[u8],
    value: &[u8],
) -> u32
    ensures number { result ≡ store_answer Tight block.now img.old key.now value.now }
    ensures image { img.new ≡ store_leaves Tight block.now img.old key.now value.now }
{
    edit_number(chronicle_map::store_tight(block, img, key, value))
}

// Removes the entry of a key.
#[unsafe(no_mangle)]
pub extern "C" fn chronicle_map_remove(block: &[u8], img: &mut [u8], key: &[u8]) -> u32
    ensures number { result ≡ remove_answer block.now img.old key.now }
    ensures image { img.new ≡ remove_leaves block.now img.old key.now }
{
    edit_number(chronicle_map::remove(block, img, key))
}

// Adds one bulk after the last; its tiers become the first free ones.
#[unsafe(no_mangle)]
pub extern "C" fn chronicle_map_grow(block: &[u8], img: &mut [u8]) -> u32
    ensures number { result ≡ grow_answer block.now img.old }
    ensures image { img.new ≡ grow_leaves block.now img.old }
{
    edit_number(chronicle_map::grow(block, img))
}

// The n-th live entry, n from 0. The array: the seven numbers of a lister line.
#[unsafe(no_mangle)]
pub extern "C" fn chronicle_map_entry(block: &[u8], img: &[u8], n: u64, row: &mut [u64; 7]) -> u32
    ensures { result ∷ row.new ≡ entry_answer block.now img.now n }
{
    match chronicle_map::entry(block, img, n as usize) {
        Ok(Some(e)) => {
            *row = row_numbers(e);
            0
        }
        Ok(None) => {
            *row = [0; 7];
            1
        }
        Err(stage) => {
            *row = [0; 7];
            u32::from(stage)
        }
    }
}

// The delay between two channels, in microseconds, from the first to the second; 0 where there is none.
#[unsafe(no_mangle)]
pub extern "C" fn chronicle_map_delay(
    block: &[u8],
    img: &[u8],
    a: u32,
    b: u32,
    delay: &mut i32,
) -> u32
    ensures { record { number = result; delay = delay.new } ≡ delay_answer block.now img.now a b }
{
    tell_delay(pairs::delay(block, img, a, b), delay)
}

// The same without a check of the whole image, by the quick lookup.
#[unsafe(no_mangle)]
pub extern "C" fn chronicle_map_quick_delay(
    block: &[u8],
    img: &[u8],
    a: u32,
    b: u32,
    delay: &mut i32,
) -> u32
    ensures { record { number = result; delay = delay.new } ≡ quick_delay_answer block.now img.now a b }
{
    tell_delay(pairs::quick_delay(block, img, a, b), delay)
}

// Sets the delay between two channels, from the first to the second, and with it the other order's.
#[unsafe(no_mangle)]
pub extern "C" fn chronicle_map_set_delay(
    block: &[u8],
    img: &mut [u8],
    a: u32,
    b: u32,
    delay: i32,
) -> u32
    ensures number { result ≡ set_delay_answer block.now img.old a b delay }
    ensures image { img.new ≡ set_delay_leaves block.now img.old a b delay }
{
    edit_number(pairs::set_delay(block, img, a, b, delay))
}

// XXH64 with seed 0.
#[unsafe(no_mangle)]
pub extern "C" fn chronicle_map_xxh64(bytes: &[u8]) -> u64
    ensures { result ≡ hash_xxh64 bytes.now }
{
    xxh64::xxh64(bytes)
}
