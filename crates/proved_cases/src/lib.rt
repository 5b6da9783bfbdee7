// The page's cases that are proved: a table of the definitions in specs/, under one theorem in proofs/. There is no code.
#![tactic(auto)]
