#![tactic(auto)]

// No code: what holds of lists of calls of the C functions (specs/Claims.antt): demand 3, and demand 2's query clause.
