// The calls over a lent image. Each takes any bytes, checks them itself, and answers.
#![tactic(auto)]

ghost use Rattle.std.specs.Prelude.{◌≡◌, ◌≤◌, length};
ghost use Rattle.entries.specs.Keys.{KeyFits};
ghost use Rattle.entries.specs.Stored.{ValueFits};
ghost use Rattle.sound.specs.Sound.{SoundImage};
ghost use Rattle.growing.specs.Growing.{no_bulk as growing_no_bulk};
ghost use Rattle.edit.specs.declared.Policy.TheVariants.{OnTheSpot, Tight};
ghost use Rattle.edit.specs.Edits.{find, no_room};
ghost use Rattle.edit.specs.Replaced.{Storable};
ghost use Rattle.image.specs.Check.{check as check_check};
ghost use Rattle.image.specs.List.{entry as list_entry};
ghost use Rattle.chronicle_map.specs.declared.EditError.TheVariants.{Refused};
ghost use Rattle.chronicle_map.specs.Asked.{a_key, an_entry, asked};
ghost use Rattle.chronicle_map.specs.Calls.{from_find, lookup as calls_lookup, RecordOf, error_number, Edited, remove_found, remove as calls_remove, store_unless, store as calls_store, grow_unless, grow as calls_grow};

use edit::Policy;
use entries::Live;
use image::{Counts, Stage, Verdict};
use layout::Shape;
use search::Found;

// Where a record stands: its offset in the image, its length, and the tier and slot of its entry. Two fields side by side that a caller's
// array has side by side too would be copied as one, and that copy would wait until both are stored; so the length stands after the tier.
#[derive(Clone, Copy)]
pub struct RecordPlace {
    pub offset: usize,
    pub tier: usize,
    pub length: usize,
    pub slot: usize,
}

// Where the search for an absent key ended: the last tier of the key's chain, and the empty slot there.
#[derive(Clone, Copy)]
pub struct SearchEnd {
    pub tier: usize,
    pub slot: usize,
}

// What a lookup finds: where the record stands; none, and where the search ended. Neither is an error.
#[derive(Clone, Copy)]
pub enum Located {
    Found(RecordPlace),
    Absent(SearchEnd),
}

// Why nothing is edited: no such key; no tier takes the entry; no room for one more bulk; a refusal.
#[derive(Clone, Copy, Debug, PartialEq, Eq)]
pub enum EditError {
    Absent,
    Full,
    NoBulk,
    Refused(Stage),
}

impl From<Stage> for EditError {
    ghost from_gives = { λ stage e. e ≡ Refused stage };

    fn from(refusal: Stage) -> EditError {
        EditError::Refused(refusal)
    }
}

// The number of an edit that is not made.
impl From<EditError> for u32 {
    ghost from_gives = { λ e number. number ≡ error_number e };

    fn from(e: EditError) -> u32 {
        match e {
            EditError::Absent => 1,
            EditError::Full => 10,
            EditError::NoBulk => 13,
            EditError::Refused(stage) => u32::from(stage),
        }
    }
}

// The check: the counts, or the lowest number that applies.
pub fn check(block: &[u8], img: &[u8]) -> Verdict
    ensures { result ≡ check_check block.now img.now }
{
    image::check(block, img)
}

// The n-th live entry, by segment, chain order, slot.
pub fn entry(block: &[u8], img: &[u8], n: usize) -> Result<Option<Live>, Stage>
    ensures { result ≡ list_entry block.now img.now n }
{
    image::list::entry(block, img, n)
}

// The lowest of 2 to 8 that applies where a key is given.
fn asked_key(block: &[u8], img: &[u8], key: &[u8]) -> Result<(Shape, Counts), Stage>
    ensures { result ≡ asked block.now img.now (a_key key.now) }
{
    let (z, c) = image::examine(block, img)?;
    if !entries::key_fits(z.settings, key) {
        return Err(Stage::Key);
    }
    Ok((z, c))
}

// The lowest of 2 to 9 that applies where a key and a record are given.
fn asked_entry(block: &[u8], img: &[u8], key: &[u8], value: &[u8]) -> Result<(Shape, Counts), Stage>
    ensures { result ≡ asked block.now img.now (an_entry key.now value.now) }
{
    let (z, c) = asked_key(block, img, key)?;
    match entries::value_fits(z.settings, key.len(), value.len()) {
        Some(_) => Ok((z, c)),
        None => Err(Stage::Value),
    }
}

// Where the record of the whole key stands in an accepted image, or where the search for it ended.
fn lookup_accepted(z: Shape, img: &[u8], key: &[u8]) -> Located
    requires { SoundImage z img.now }
    ensures { result ≡ from_find z img.now key.now (find z img.now key.now) }
{
    match search::search(z, img, key) {
        Found::Absent(t, j) => Located::Absent(SearchEnd { tier: t, slot: j }),
        Found::At(t, j) => {
            let e = entries::read::entry_at(z, img, t, j);
            Located::Found(RecordPlace {
                offset: e.valueAt,
                length: e.valueLength,
                tier: t,
                slot: j,
            })
        }
    }
}

// Where the record under a key stands, or where the search for the key ended.
pub fn lookup(block: &[u8], img: &[u8], key: &[u8]) -> Result<Located, Stage>
    ensures { result ≡ calls_lookup block.now img.now key.now }
{
    let (z, _) = asked_key(block, img, key)?;
    Ok(lookup_accepted(z, img, key))
}

// The record itself, as a part of the image; the empty part at its start where there is none.
pub fn record<'a>(block: &[u8], img: &'a [u8], key: &[u8]) -> &'a [u8]
    ensures { RecordOf img.entry (calls_lookup block.now img.now key.now) result }
{
    match lookup(block, img, key) {
        Ok(Located::Found(p)) => {
            let from = p.offset;
            let to = p.offset + p.length;
            &img[from..to]
        }
        Ok(Located::Absent(_)) => &img[0..0],
        Err(_) => &img[0..0],
    }
}

// Removes the entry of a key from an accepted image.
fn remove_accepted(z: Shape, img: &mut [u8], key: &[u8]) -> Result<(), EditError>
    requires { SoundImage z img.old }
    ensures { record { answer = result; image = img.new }
        ≡ remove_found z img.old key.now (find z img.old key.now) }
{
    if edit::remove(z, img, key) {
        return Ok(());
    }
    Err(EditError::Absent)
}

// Removes the entry of a key. An extra tier that this empties becomes the first free one.
pub fn remove(block: &[u8], img: &mut [u8], key: &[u8]) -> Result<(), EditError>
    ensures { record { answer = result; image = img.new } ≡ calls_remove block.now img.old key.now }
{
    let (z, _) = asked_key(block, img, key)?;
    remove_accepted(z, img, key)
}

// Stores a record under a key in an accepted image.
fn store_accepted(
    z: Shape,
    img: &mut [u8],
    key: &[u8],
    value: &[u8],
    policy: Policy,
) -> Result<(), EditError>
    requires { Storable z img.old key.now value.now }
    ensures { record { answer = result; image = img.new }
        ≡ store_unless policy z img.old key.now value.now
        (no_room z img.old key.now value.now) }
{
    if edit::store(z, img, key, value, policy) {
        return Ok(());
    }
    Err(EditError::Full)
}

// Stores a record under a key by a policy.
fn store_by(
    block: &[u8],
    img: &mut [u8],
    key: &[u8],
    value: &[u8],
    policy: Policy,
) -> Result<(), EditError>
    ensures { record { answer = result; image = img.new }
        ≡ calls_store policy block.now img.old key.now value.now }
{
    let (z, _) = asked_entry(block, img, key, value)?;
    store_accepted(z, img, key, value, policy)
}

// Stores a record under a key, or replaces the one that is there: on the spot where the new entry takes as many chunks.
pub fn store(block: &[u8], img: &mut [u8], key: &[u8], value: &[u8]) -> Result<(), EditError>
    ensures { record { answer = result; image = img.new }
        ≡ calls_store OnTheSpot block.now img.old key.now value.now }
{
    store_by(block, img, key, value, Policy::OnTheSpot)
}

// The same, but an old entry is always removed first, in effect, and the new one goes to the lowest run that takes it.
pub fn store_tight(block: &[u8], img: &mut [u8], key: &[u8], value: &[u8]) -> Result<(), EditError>
    ensures { record { answer = result; image = img.new }
        ≡ calls_store Tight block.now img.old key.now value.now }
{
    store_by(block, img, key, value, Policy::Tight)
}

// Adds one bulk to an accepted image, where there is room for it.
fn grow_accepted(z: Shape, img: &mut [u8]) -> Result<(), EditError>
    requires { SoundImage z img.old }
    ensures { record { answer = result; image = img.new }
        ≡ grow_unless z img.old (growing_no_bulk z (length img.old)) }
{
    if growing::no_bulk(z, img) {
        return Err(EditError::NoBulk);
    }
    growing::grow(z, img);
    Ok(())
}

// Adds one bulk after the last: its tiers are emptied and become the first free ones. The map stays as it is.
pub fn grow(block: &[u8], img: &mut [u8]) -> Result<(), EditError>
    ensures { record { answer = result; image = img.new } ≡ calls_grow block.now img.old }
{
    let (z, _) = image::examine(block, img)?;
    grow_accepted(z, img)
}
