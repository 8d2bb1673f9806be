// Clauses, assignments and D-sequents, the clauses' tallies and their index, and the three work tables that hold them. No other crate knows how these are laid out.
//
// The engine's one-letter names, in this crate and those above it: t is the clause table, m a number of its clauses, i the number of one; q are their tallies and their
// index, j is a block of them and u a row of the index, and w a second row in `index`; x is a word of counts or of a row; rs is the table of D-sequents; e are the limits of
// a run, a the decisions, s the counts; c and d are a clause or a D-sequent, and d is a change of counts in `tally`; v and w are the word of one variable, and v its number
// in `tally` and `tallies`; b is a value of it, or a place in a block; r is a word of decided variables, k one of redundant variables.
#![tactic(auto)]

pub mod clause;
pub mod index;
pub mod records;
pub mod state;
pub mod table;
pub mod tallies;
pub mod tally;
