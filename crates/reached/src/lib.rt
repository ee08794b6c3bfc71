// That no list of calls meets refusal 4, and what the records of an accepted call hold at most: lemmas only, no code.

#![tactic(auto)]
