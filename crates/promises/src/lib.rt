// The promises, as theorems over the definitions that the contracts cite: proofs/Demand*.antt state them. No code.
#![tactic(auto)]
