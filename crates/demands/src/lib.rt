// No code: what document 01 demands of whole sources. Statements in specs/ and proofs/.
#![tactic(auto)]
