// The theorems over `paper` that the three demands rest on: pure mathematics, in proofs/, cited by the crates above. There is no code.
#![tactic(auto)]
