// Runs journals through the library with settings (N2): for each journal its name, and all eight rows after each interval. The gate compares what
// is printed with stored rows. The arguments are two files a case: its settings, and its journal.

#![tactic(auto)]

use journal::LONGEST_JOURNAL;
use report::{Control, SETTINGS};
use std::io;
use std::rt::Files;

// A case, by the arguments that name its two files.
fn run_case<R: Files + Print>(rt: &R, beside: &str, name: &str) -> io::Result<()> {
    report::print_argument(rt, name)?;
    let mut bytes = [0u8; SETTINGS];
    report::read_argument(rt, beside, &mut bytes)?;
    let settings = report::settings_in(&bytes);
    let mut input = [0u8; LONGEST_JOURNAL];
    let journal = report::read_argument(rt, name, &mut input)?;
    report::print_header(rt)?;
    report::print_opened_at(
        rt,
        journal,
        |first| tracker::open_with_settings(first, [500; 6], settings),
        &Control,
    )
}

fn main(rt: HostRuntime) -> io::Result<()> {
    report::run_cases(&rt, |settings, journal| run_case(&rt, settings, journal))
}
