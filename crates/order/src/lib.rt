// Cut lists in order: pair by pair, and the first of them that answers a question, whatever is asked. There is no code here: specs/
// has the words of a search and proofs/ the laws that lead from pair to pair, and from no list of each number of pairs to the first list
// of all. All of it leans on specs/ of `scope` and on the laws of the replay.

#![tactic(auto)]
