// A desk with drafts to come back to: what is lent from call to call. Crate `desk` has the calls.
#![tactic(auto)]

// A desk for so many options: the current order, which drafts are kept (draft d at bit d - 1), and the order of each draft (in place d - 1).
// The layout is C's, so the drafts are two arrays.
#[repr(C)]
#[derive(Clone, Copy)]
pub struct Desk {
    pub options: u32,
    pub wanted: u64,
    pub unwanted: u64,
    pub kept: u64,
    pub wanteds: [u64; 16],
    pub unwanteds: [u64; 16],
}
