// Theorems only: upstream's published rules and the fixed lists stand in specs/, that an accepted chain obeys them is proved in proofs/.
#![tactic(auto)]
