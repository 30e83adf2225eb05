// No code: document 01's worked rows, proved of the definitions (proofs/Worked.antt).
#![tactic(auto)]
