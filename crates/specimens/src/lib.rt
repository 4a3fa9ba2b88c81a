// Theorems only: the specimens of document 01 stand in specs/, their proofs in proofs/.
#![tactic(auto)]
