// The customer's three demands, and what one case and any run of calls leave, each a theorem in a
// file of its own name under proofs/, over the definitions that the contracts of `judge` and `ledger`
// cite. There is no code here: what the theorems speak of is what those calls are proved to do.
#![tactic(auto)]
