// No code: the buyer's demands as theorems over the layers' definitions (proofs/), and the words that they are said in (specs/).
#![tactic(auto)]
