// Prints the listing of the journal on standard input. What is printed is decided in the library.

#![tactic(auto)]

use std::io;

fn main(rt: HostRuntime) -> io::Result<()> {
    let mut input = [0u8; 65536];
    // No larger than is asked for: it is zeroed first.
    let mut out = [0u8; listing::ROOM];
    listing::print_listing(&mut rt.stdin(), &mut input, &mut out, &mut rt.stdout())
}
