// Stored tables as definitions: records, what is refused of them, what they mean, loading and writing. Definitions stand in specs/, the theorems in proofs/;
// there is no code.
#![tactic(auto)]
