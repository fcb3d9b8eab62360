// Compares journals with published entries through the library (N12): for each journal its name, and the answer, the four figures and the lowest n
// and direction or `none`. The gate compares what is printed with stored answers. The arguments are two files a case: its journal, and its entries.

#![tactic(auto)]

use comparison::Comparison;
use std::io;
use std::rt::Files;

// More than any file of a case is long.
const LONGEST: usize = 131072;

fn print_figures(rt: &impl Print, f: Comparison) -> io::Result<()> {
    print!(rt;
        "{},{},{},{},",
        f.equal, f.different, f.only_there, f.only_here
    )?;
    match f.lowest {
        Some(key) => println!(rt; "{},{}", key.n, key.direction),
        None => println!(rt; "none"),
    }
}

// A case, by the arguments that name its two files.
fn run_case<R: Files + Print>(rt: &R, journal_name: &str, entries_name: &str) -> io::Result<()> {
    report::print_argument(rt, journal_name)?;
    let mut journal = [0u8; LONGEST];
    let journal = report::read_argument(rt, journal_name, &mut journal)?;
    let mut entries = [0u8; LONGEST];
    let entries = report::read_argument(rt, entries_name, &mut entries)?;
    match beside::compare(journal, entries) {
        Ok(figures) => print_figures(rt, figures),
        Err(why) => report::print_refusal(rt, why),
    }
}

fn main(rt: HostRuntime) -> io::Result<()> {
    report::run_cases(&rt, |journal, entries| run_case(&rt, journal, entries))
}
