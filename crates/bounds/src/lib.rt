// No code. What is charged over time, counted: sums over windows of ticks, a server's ledger, and
// the two bounds of document 01 as facts about functions of time. The proofs are in proofs/.

#![tactic(auto)]
