// The four calls of document 01, the simulated exchange, and the proof of demand 3: every run of a scenario follows the
// rounds of SyncCrash, and so reaches agreement. No code: definitions in specs/, proofs in proofs/.
#![tactic(auto)]
