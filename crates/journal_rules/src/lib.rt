// What a read of a journal gives. What the calls of a journal answer is in specs/, in document 01's order; there is no code here.

#![tactic(auto)]

// How many records a journal holds, and the first n and the last n of them.
#[derive(Clone, Copy)]
pub struct Contents {
    pub count: u32,
    pub first: u32,
    pub last: u32,
}
