#![tactic(auto)]

// The paper's worked cases, computed from the definitions: A to K in specs/Table.antt, the rest in specs/Cases.antt. No code of
// its own.
