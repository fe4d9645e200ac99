// Lines as definitions: the grammar, the reader that follows it, and reading a line into a workspace. Definitions stand in specs/, the theorems in proofs/; there is no code.
#![tactic(auto)]
