// No code: what a record holds with its texts as their bytes, how it is written, and that a file which is taken is what its records are written as.
#![tactic(auto)]
