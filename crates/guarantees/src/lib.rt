#![tactic(auto)]

// The guarantees, on one page: specs/Guarantees.antt. No code of its own.
