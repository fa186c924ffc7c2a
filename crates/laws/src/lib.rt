// Laws of the replay, the two theorems of document 01 about it, and the one behind document 02's request [7]: a message whose first path is
// cut nowhere in time is untouched, a message that turns to a second path that stays whole arrives within D slots, and the foremost message
// whose crossing differs names a link that is cut. There is no code here: specs/ has the statements, to be read alone, and proofs/ a
// theorem for each. All of it leans on specs/ of `scope` alone (Slot, Cycle, Cuts, Spare, Good, Plan, Capture).

#![tactic(auto)]
