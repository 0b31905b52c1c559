//! Checks a catalogue: reads rules from standard input, a line each, and reports on every line.
//!
//! For a line that is taken it prints the rule as read, with all its parentheses and with decoded names;
//! for one that is refused the number, the carried number and the layer of the refusal, and the line with
//! a mark under the place. Any bytes may come.
#![tactic(auto)]

use lines::Lines;
use report::Report;
use std::io;
use std::io::Read;

mod firing;
mod report;
mod text;

fn main(rt: HostRuntime) -> io::Result<()> {
    let mut input = Vec::new(rt.alloc());
    rt.stdin().read_to_end(&mut input)?;
    let mut report = Report::new(rt.alloc());
    for line in Lines::new(&input) {
        let entry = report.enter(rt.alloc(), line)?;
        rt.print(entry.as_str())?;
    }
    let summary = report.summary(rt.alloc())?;
    rt.print(summary.as_str())
}
