// Which messages a list of cuts can lose. A pair touches those that have its link before them in its slot or later, and strips those that
// it leaves without what would help them; a list loses only messages that it both touches and strips. There is no code here: specs/ has
// the statements, to be read alone, and proofs/ a theorem for each. It leans on the theorems of `laws`, on the pairs of `order` and on the
// sums of `sets`.

#![tactic(auto)]
