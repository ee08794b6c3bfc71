// How long a burst can last after its last high sample is about definitions alone: see specs/.

#![tactic(auto)]
