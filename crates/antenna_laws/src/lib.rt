// What sixteen antennas have in common is about definitions alone: see specs/.

#![tactic(auto)]
