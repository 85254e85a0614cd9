// The lines that the programs print, each made whole in a buffer of its own.
#![tactic(auto)]

mod line;

ghost use Rattle.std.specs.Prelude.{◌<◌, ◌≤◌, length};
ghost use Rattle.text.specs.Lines.{line, heading as lines_heading, totals, refused};
ghost use Rattle.text.specs.Line.{Reads};

pub use line::Line;
use line::start;

// Numbers one space apart, seven at most.
pub fn numbers_line(ns: &[u64]) -> Line
    requires { (0 < length ns.now) × (length ns.now ≤ 7) }
    ensures { Reads (line ns.now) result }
{
    let first = start().put_number(ns[0]);
    first.put_numbers(&ns[1..]).put_byte(b'\n')
}

pub fn heading() -> Line
    ensures { Reads lines_heading result }
{
    start().put_word(b"segment tier slot chunk chunks key value\n")
}

pub fn totals_line(entries: u64, chunks: u64, tiers: u64, free: u64) -> Line
    ensures { Reads (totals entries chunks tiers free) result }
{
    start()
        .put_item(b"entries", entries)
        .put_item(b" chunks", chunks)
        .put_item(b" tiers", tiers)
        .put_item(b" free", free)
        .put_byte(b'\n')
}

pub fn refusal_line(n: u64) -> Line
    ensures { Reads (refused n) result }
{
    start().put_item(b"refused", n).put_byte(b'\n')
}
