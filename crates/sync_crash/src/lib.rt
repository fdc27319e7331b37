// The rounds of SyncCrash as mathematics, and the proof that they reach agreement. No code: definitions and proofs in
// specs/.
#![tactic(auto)]
