// No code. The morning report of a night's event file: what each of its numbers is, and its page.
// (02, No. 1.) The definitions are in specs/, their laws in proofs/; program report counts.

#![tactic(auto)]
