// No code: a machine that works under a budget and is called again and again (specs/), and what holds of a whole list of its calls (proofs/).
#![tactic(auto)]
