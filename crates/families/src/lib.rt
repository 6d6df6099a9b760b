// No code: what holds of every token, however the rules that may vary are set. Statements in specs/ and proofs/.
#![tactic(auto)]
