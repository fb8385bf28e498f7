#![tactic(auto)]

// Demand 3 about every list of calls and a placard after it, on a record and of the library to link: theorems only, in specs/.
// No code of its own.
