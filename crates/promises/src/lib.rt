// What demands 2 and 3 promise of the values that the contracts of the calls cite, one theorem for each promise.
// No code: the statements in specs/, their proofs in proofs/.
#![tactic(auto)]
