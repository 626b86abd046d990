// Demand 3 for the public answers, and the table of P rows: specs/ and proofs/. No code of its own.
#![tactic(auto)]
