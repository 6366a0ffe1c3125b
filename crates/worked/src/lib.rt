// 01's worked cases, computed on the definitions that the calls' contracts cite: see proofs/. No code.
#![tactic(auto)]
