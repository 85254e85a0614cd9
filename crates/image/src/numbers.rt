// The answers as document 01's numbers.
ghost use Rattle.std.specs.Prelude.{◌≡◌};
ghost use Rattle.image.specs.Check.{stage_number as check_stage_number};
ghost use Rattle.image.specs.List.{row_numbers as list_row_numbers};

use crate::Stage;
use entries::Live;

// The number of a refusal. A function with a name of its own, which docs/TRACE.md has.
pub fn stage_number(stage: Stage) -> u32
    ensures { result ≡ check_stage_number stage }
{
    match stage {
        Stage::Block => 2,
        Stage::Field => 3,
        Stage::Frame => 4,
        Stage::Chains => 5,
        Stage::Entries => 6,
        Stage::Chunks => 7,
        Stage::Key => 8,
        Stage::Value => 9,
        Stage::Walk => 18,
    }
}

// The same as a conversion, for exports and programs.
impl From<Stage> for u32 {
    ghost from_gives = { λ stage number. number ≡ check_stage_number stage };

    fn from(stage: Stage) -> u32 {
        stage_number(stage)
    }
}

// The seven numbers of an entry's line.
pub fn row_numbers(e: Live) -> [u64; 7]
    ensures { result ≡ list_row_numbers e }
{
    [
        e.segment as u64,
        e.tier as u64,
        e.slot as u64,
        e.chunk as u64,
        e.chunks as u64,
        e.entry.keyLength as u64,
        e.entry.valueLength as u64,
    ]
}
