// The check of a whole image, and the list of its live entries.
#![tactic(auto)]

pub mod cursor;
pub mod list;
pub mod numbers;

ghost use Rattle.std.specs.Prelude.{◌≡◌};
ghost use Rattle.settings.specs.Rules.{Valid};
ghost use Rattle.layout.specs.Frame.{shape_of, frame_fits?};
ghost use Rattle.image.specs.Check.{stage_of, stage_of_contents, after_frame, examine as check_examine, check as check_check};

use contents::ContentsError;
use layout::Shape;
use settings::{ParseError, Settings};

// What may be refused, in the order in which it is asked. The walk is that of a quick lookup, which asks for it in place of chains,
// entries and chunks, and after the key.
#[derive(Clone, Copy, Debug, PartialEq, Eq)]
pub enum Stage {
    Block,
    Field,
    Frame,
    Chains,
    Entries,
    Chunks,
    Key,
    Value,
    Walk,
}

// A refused block is the stage of the same name.
impl From<ParseError> for Stage {
    ghost from_gives = { λ e s. s ≡ stage_of e };

    fn from(e: ParseError) -> Stage {
        match e {
            ParseError::Block => Stage::Block,
            ParseError::Field => Stage::Field,
        }
    }
}

// A broken rule of what the tiers hold is the stage of the same name.
impl From<ContentsError> for Stage {
    ghost from_gives = { λ e s. s ≡ stage_of_contents e };

    fn from(e: ContentsError) -> Stage {
        match e {
            ContentsError::Entries => Stage::Entries,
            ContentsError::Chunks => Stage::Chunks,
        }
    }
}

// What the check counts over an accepted image: live entries, marked chunks, chained tiers and free tiers.
#[derive(Clone, Copy)]
pub struct Counts {
    pub entries: usize,
    pub chunks: usize,
    pub tiers: usize,
    pub free: usize,
}

#[derive(Clone, Copy)]
pub enum Outcome {
    Accepted(Counts),
    Refused(Stage),
}

// The check's answer. A rule of the project names this form: a verdict whose outcome is counts or a refusal, so it is no Result.
#[derive(Clone, Copy)]
pub struct Verdict {
    pub outcome: Outcome,
}

// The stages after the settings, each over the whole image before the next.
fn examine_image(st: Settings, img: &[u8]) -> Result<(Shape, Counts), Stage>
    requires { Valid st }
    ensures { result ≡ after_frame (shape_of st img.now) img.now
        (frame_fits? (shape_of st img.now) img.now) }
{
    let Some(z) = layout::frame_of(st, img) else {
        return Err(Stage::Frame);
    };
    let Some((tiers, free)) = chains::chains_of(z, img) else {
        return Err(Stage::Chains);
    };
    let (entries, chunks) = contents::contents_of(z, img)?;
    let counts = Counts {
        entries,
        chunks,
        tiers,
        free,
    };
    Ok((z, counts))
}

// The lowest stage that is broken, or the shape of an accepted image, for the calls that go on to work with it, and its counts.
pub fn examine(block: &[u8], img: &[u8]) -> Result<(Shape, Counts), Stage>
    ensures { result ≡ check_examine block.now img.now }
{
    let st = settings::parse(block)?;
    examine_image(st, img)
}

pub fn check(block: &[u8], img: &[u8]) -> Verdict
    ensures { result ≡ check_check block.now img.now }
{
    match examine(block, img) {
        Ok((_, counts)) => Verdict {
            outcome: Outcome::Accepted(counts),
        },
        Err(stage) => Verdict {
            outcome: Outcome::Refused(stage),
        },
    }
}
