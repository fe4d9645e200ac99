// The calculus: terms, their words, contraction, conversion and the rounds of a press. Definitions stand in specs/, their theorems in proofs/; there is no code.
#![tactic(auto)]
