// The binary lambda calculus as definitions: the bits of a term, bits in bytes, bringing an encoding in and handing one out. Definitions stand in specs/, the
// theorems in proofs/; there is no code.
#![tactic(auto)]
