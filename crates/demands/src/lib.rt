// What the customer is promised, and the cases of the requirements: definitions and their proofs, and no code.

#![tactic(auto)]
