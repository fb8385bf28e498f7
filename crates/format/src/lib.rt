#![tactic(auto)]

// The file's definitions, both ways: theorems only, in specs/. No code of its own.
