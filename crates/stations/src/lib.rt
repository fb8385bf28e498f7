#![tactic(auto)]

// Equipment by station: laws in proofs/, no code.
