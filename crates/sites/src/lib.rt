// Sites that share one allowance: what is handed on from call to call, and what is answered. Crate `terminal` has the code.
#![tactic(auto)]

use answer::Answer;

// A terminal between two sites: what is left of the whole allowance, the part of a site, and how many sites are to come.
#[derive(Clone, Copy)]
pub struct Terminal {
    pub left: u32,
    pub part: u32,
    pub sites: u32,
}

// The answer to a site, and the terminal for the next.
#[derive(Clone, Copy)]
pub struct Served {
    pub answer: Answer,
    pub terminal: Terminal,
}
