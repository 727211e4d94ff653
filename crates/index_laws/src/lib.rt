// No code: what holds of an index that puts have built from empty, and of a query on it (specs/Claims.antt).
#![tactic(auto)]
