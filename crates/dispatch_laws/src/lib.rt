#![tactic(auto)]

// No code: what holds of lists of dispatch calls (specs/Claims.antt): demand 3, and demand 2's query clause on an index that they built.
