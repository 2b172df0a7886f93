// No code. The marked figures and the promises are in specs/, their proofs in proofs/.

#![tactic(auto)]
