// What the signature covers: the theorems of proofs/, about the rules alone. There is no code here, and none that cites them.
#![tactic(auto)]
