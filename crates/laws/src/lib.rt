// Laws only: definitions in specs/, what is proved of them in proofs/.
#![tactic(auto)]
