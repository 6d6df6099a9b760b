// No code: what a sequence of lookahead calls has emitted, and that each leaves a sound state. Statements in specs/ and proofs/.
#![tactic(auto)]
