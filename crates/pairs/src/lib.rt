// Signed delays by pair of channels: asked and set in either order, kept once.
#![tactic(auto)]

ghost use Rattle.std.specs.Prelude.{◌≡◌, ◌≢◌, Ok};
ghost use Rattle.lists.specs.Decide.{Decides};
ghost use Rattle.image.specs.Check.{check};
ghost use Rattle.pairs.specs.declared.AskError.TheVariants.{Refused};
ghost use Rattle.pairs.specs.declared.SetError.TheVariants.{Edit};
ghost use Rattle.pairs.specs.Pairs.{IsChannel, ChannelsFit, pair_key as pairs_pair_key, delay_record as pairs_delay_record, most_negative, record_fits?, in_order as pairs_in_order};
ghost use Rattle.pairs.specs.Delays.{from_record as delays_from_record, from_located as delays_from_located, delay as delays_delay, ask_error_number, set_error_number, unless_refused as delays_unless_refused, Setting, set_delay as delays_set_delay};
ghost use Rattle.pairs.specs.Quick.{quick_delay as quick_quick_delay};
ghost use Rattle.pairs.specs.Asking.{Within};

use chronicle_map::{EditError, Located};
use image::{Outcome, Stage};

// Why an ask has no answer: 11, the channels are no pair; 12, the record is no delay; a refusal of the store.
#[derive(Clone, Copy, Debug, PartialEq, Eq)]
pub enum AskError {
    BadPair,
    BadDelay,
    Refused(Stage),
}

impl From<Stage> for AskError {
    ghost from_gives = { λ stage e. e ≡ Refused stage };

    fn from(refusal: Stage) -> AskError {
        AskError::Refused(refusal)
    }
}

// The number of an ask that is refused.
impl From<AskError> for u32 {
    ghost from_gives = { λ e number. number ≡ ask_error_number e };

    fn from(e: AskError) -> u32 {
        match e {
            AskError::BadPair => 11,
            AskError::BadDelay => 12,
            AskError::Refused(stage) => u32::from(stage),
        }
    }
}

// Why nothing is set: 11; 12; the store's error.
#[derive(Clone, Copy, Debug, PartialEq, Eq)]
pub enum SetError {
    BadPair,
    BadDelay,
    Edit(EditError),
}

impl From<EditError> for SetError {
    ghost from_gives = { λ edit e. e ≡ Edit edit };

    fn from(error: EditError) -> SetError {
        SetError::Edit(error)
    }
}

// The number of a set that is not made.
impl From<SetError> for u32 {
    ghost from_gives = { λ e number. number ≡ set_error_number e };

    fn from(e: SetError) -> u32 {
        match e {
            SetError::BadPair => 11,
            SetError::BadDelay => 12,
            SetError::Edit(edit) => u32::from(edit),
        }
    }
}

fn is_channel(c: u32) -> bool
    ensures { Decides result (IsChannel c) }
{
    if c < 1 {
        return false;
    }
    if 32 < c {
        return false;
    }
    true
}

fn channels_fit(a: u32, b: u32) -> bool
    ensures { Decides result (ChannelsFit a b) }
{
    if !is_channel(a) {
        return false;
    }
    if !is_channel(b) {
        return false;
    }
    if a == b {
        return false;
    }
    true
}

// The key of either order.
fn pair_key(a: u32, b: u32) -> [u8; 2]
    requires { ChannelsFit a b }
    ensures { result ≡ pairs_pair_key a b }
{
    if a < b {
        return [a as u8, b as u8];
    }
    [b as u8, a as u8]
}

// A delay with the sign of the order.
fn in_order(a: u32, b: u32, d: i32) -> i32
    requires { d ≢ most_negative }
    ensures value { result ≡ pairs_in_order a b d }
    ensures is_delay { result ≢ most_negative }
{
    if a < b {
        return d;
    }
    -d
}

// The record of a delay.
fn delay_record(d: i32) -> [u8; 4]
    ensures { result ≡ pairs_delay_record d }
{
    d.to_le_bytes()
}

// The answer that a stored record gives: 12 where it is no delay.
fn from_record(a: u32, b: u32, bytes: &[u8]) -> Result<Option<i32>, AskError>
    ensures { result ≡ delays_from_record a b bytes.now (record_fits? bytes.now) }
{
    let Ok(record) = <[u8; 4]>::try_from(bytes) else {
        return Err(AskError::BadDelay);
    };
    let delay = i32::from_le_bytes(record);
    if delay == i32::MIN {
        return Err(AskError::BadDelay);
    }
    Ok(Some(in_order(a, b, delay)))
}

// The answer that the lookup of the pair's key gives.
fn from_located(img: &[u8], a: u32, b: u32, located: Located) -> Result<Option<i32>, AskError>
    requires { Within img.now located }
    ensures { result ≡ delays_from_located img.now a b (Ok located) }
{
    match located {
        Located::Absent(_) => Ok(None),
        Located::Found(p) => {
            let from = p.offset;
            let to = p.offset + p.length;
            from_record(a, b, &img[from..to])
        }
    }
}

// The delay from the first channel to the second.
pub fn delay(block: &[u8], img: &[u8], a: u32, b: u32) -> Result<Option<i32>, AskError>
    ensures { result ≡ delays_delay block.now img.now a b }
{
    if !channels_fit(a, b) {
        let verdict = chronicle_map::check(block, img);
        let outcome = verdict.outcome;
        return match outcome {
            Outcome::Refused(stage) => Err(AskError::Refused(stage)),
            Outcome::Accepted(_) => Err(AskError::BadPair),
        };
    }
    let key = pair_key(a, b);
    from_located(img, a, b, chronicle_map::lookup(block, img, &key)?)
}

// The same without a check of the whole image: by the quick lookup.
pub fn quick_delay(block: &[u8], img: &[u8], a: u32, b: u32) -> Result<Option<i32>, AskError>
    ensures { result ≡ quick_quick_delay block.now img.now a b }
{
    if !channels_fit(a, b) {
        quick::open_image(block, img)?;
        return Err(AskError::BadPair);
    }
    let key = pair_key(a, b);
    from_located(img, a, b, quick::quick_lookup(block, img, &key)?)
}

// The check's refusal, or else the error that is given.
fn unless_refused(block: &[u8], img: &[u8], other: SetError) -> SetError
    ensures { result ≡ delays_unless_refused other (check block.now img.now).outcome }
{
    let verdict = chronicle_map::check(block, img);
    let outcome = verdict.outcome;
    match outcome {
        Outcome::Refused(stage) => SetError::Edit(EditError::Refused(stage)),
        Outcome::Accepted(_) => other,
    }
}

// Sets the delay from the first channel to the second, and with it the other order's.
pub fn set_delay(block: &[u8], img: &mut [u8], a: u32, b: u32, d: i32) -> Result<(), SetError>
    ensures { record { answer = result; image = img.new } ≡ delays_set_delay block.now img.old a b d }
{
    let pair = channels_fit(a, b);
    if !pair {
        return Err(unless_refused(block, img, SetError::BadPair));
    }
    if d == i32::MIN {
        return Err(unless_refused(block, img, SetError::BadDelay));
    }
    let key = pair_key(a, b);
    let bytes = delay_record(in_order(a, b, d));
    chronicle_map::store(block, img, &key, &bytes)?;
    Ok(())
}
