// Link figures after any list of calls on two ends. The statement stands in specs/, its proof in proofs/; there is no function here.

#![tactic(auto)]
