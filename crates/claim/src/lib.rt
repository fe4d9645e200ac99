// The press as a definition, lists of presses, and the claim about every list. Definitions stand in specs/, the claim's proof in proofs/; there is no code.
#![tactic(auto)]
