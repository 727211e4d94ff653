#![tactic(auto)]

// No code: document 01's acceptance bench, its rows marked P as one table (specs/Bench.antt), and worked examples of readings (specs/Examples.antt), of the report (specs/Reports.antt) and of text (specs/Texts.antt), each with one proof (proofs/Held.antt).
