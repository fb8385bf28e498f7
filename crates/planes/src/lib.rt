#![tactic(auto)]

// Limits as half-planes of front load and water: definitions and laws in specs/ and proofs/, no code.
