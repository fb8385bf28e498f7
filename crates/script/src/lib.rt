#![tactic(auto)]

// Cases as texts, for the programs that try the library: a line is a label, a colon, and the calls with a comma between
// two. w, v and u weigh, p weighs twice, i weighs twice by an indicator, s and l install a sheet, c makes a change, a adjusts the seat,
// - takes back, r reads the record's own file into a fresh record, g reads the file of case G, o its version 1, x the first
// without its last byte, and = makes a fresh record, as any other letter does. The letters behind w, v, u, p, i, s, l, c and a
// are the fields that are not as in src/calls.rt, src/sample.rt and src/sent.rt.
pub mod calls;
mod reread;
mod sample;
mod sent;
pub mod texts;
