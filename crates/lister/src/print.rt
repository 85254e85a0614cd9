// Lines on standard output. What stands in each is proved; that it is written is not. A write that fails is returned.
ghost use Rattle.text.specs.Line.{Reads};
ghost use Rattle.lister.specs.Printed.{refusal_text, totals_text};

use image::{Counts, Stage};
use std::io;
use text::Line;

pub fn line(rt: &impl Print, l: Line) -> io::Result<()> {
    let bytes = l.bytes;
    // `min`, so that nothing is asked of callers
    let n = l.len.min(bytes.len());
    rt.write_all(&bytes[..n])
}

fn refusal_line(stage: Stage) -> Line
    ensures { Reads (refusal_text stage) result }
{
    text::refusal_line(u32::from(stage) as u64)
}

fn totals_line(counts: Counts) -> Line
    ensures { Reads (totals_text counts) result }
{
    text::totals_line(
        counts.entries as u64,
        counts.chunks as u64,
        counts.tiers as u64,
        counts.free as u64,
    )
}

pub fn refusal(rt: &impl Print, stage: Stage) -> io::Result<()> {
    line(rt, refusal_line(stage))
}

pub fn heading(rt: &impl Print) -> io::Result<()> {
    line(rt, text::heading())
}

pub fn totals(rt: &impl Print, counts: Counts) -> io::Result<()> {
    line(rt, totals_line(counts))
}
