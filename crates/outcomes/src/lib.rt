// No code. What it is that a contract settles the outcome of a call is in specs/, that those of the
// public functions do is proved in proofs/.

#![tactic(auto)]
