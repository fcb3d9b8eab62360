// Compares a journal's rows with published entries (N12): `clampbeside JOURNAL ENTRIES`, two files by name. It prints the four figures and the first
// difference, or `refused,N`. The figures are the library's, the words are this program's.

#![tactic(auto)]

use comparison::{Comparison, Key};
use std::alloc::Alloc;
use std::rt::{Env, Files};
use std::{env, fs, io};

// The lowest n and direction at which the two differ, or none.
fn print_first(rt: &impl Print, lowest: Option<Key>) -> io::Result<()> {
    let Some(key) = lowest else {
        return println!(rt; "first difference: none");
    };
    // A direction above 7 is refused, so each has a name.
    let name = listing::NAMES.get(key.direction).unwrap_or(&"");
    println!(rt; "first difference: interval {}, direction {name}", key.n)
}

fn print_figures(rt: &impl Print, figures: Comparison) -> io::Result<()> {
    println!(rt; "pairs equal: {}", figures.equal)?;
    println!(rt; "pairs with different amounts: {}", figures.different)?;
    println!(rt; "entries only there: {}", figures.only_there)?;
    println!(rt; "rows only here: {}", figures.only_here)?;
    print_first(rt, figures.lowest)
}

fn print_comparison<R: Files + Alloc + Print>(
    rt: &R,
    journal: &str,
    entries: &str,
) -> io::Result<()> {
    let journal = fs::read(rt, journal)?;
    let entries = fs::read(rt, entries)?;
    match beside::compare(&journal, &entries) {
        Ok(figures) => print_figures(rt, figures),
        Err(why) => println!(rt; "refused,{}", u8::from(why)),
    }
}

// It takes two names, and no more.
fn main(rt: HostRuntime) -> io::Result<()> {
    let mut names = env::args(&rt)?.skip(1);
    match (names.next(), names.next(), names.next()) {
        (Some(journal), Some(entries), None) => {
            print_comparison(&rt, journal.as_str(), entries.as_str())
        }
        _ => {
            eprintln!(&rt; "usage: clampbeside JOURNAL ENTRIES")?;
            Err(io::Error::from(io::ErrorKind::InvalidInput))
        }
    }
}
