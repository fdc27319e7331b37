// Wrong drives, of which the statements of demand 3 are false. No code: the drives and scenarios in specs/, what is
// proved of them in proofs/.
#![tactic(auto)]
