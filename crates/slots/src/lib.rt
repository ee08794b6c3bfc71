// The slots of a train by its edges, in either mode, and that carried widths add up: definitions and
// laws only, no code.

#![tactic(auto)]
