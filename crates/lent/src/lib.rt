// The thin entry: a lane lent for change is copied out, stepped by value and stored back.
#![tactic(auto)]

ghost use Rattle.std.specs.Prelude.{◌≡◌};
ghost use Rattle.lane.specs.Step.{stepped};
ghost use Rattle.lane.specs.Answers.{answer_of};

use lane::{Answer, Lane, Reply, StepArgs};

// Step, on a lane that is lent: a refusal leaves it and both buffers as they were.
pub fn step_lent(l: &mut Lane, s: StepArgs, ook: &mut [u32], fsk: &mut [u32]) -> Reply
    ensures { (answer_of result l.new, ook.new, fsk.new) ≡ stepped l.old s ook.old fsk.old }
{
    let Answer { reply, lane } = step::step(*l, s, ook, fsk);
    *l = lane;
    reply
}

// Step by value through the entry: the lane is lent for the call and comes back in the answer.
pub fn step_by_lending(mut l: Lane, s: StepArgs, ook: &mut [u32], fsk: &mut [u32]) -> Answer
    ensures { (result, ook.new, fsk.new) ≡ stepped l s ook.old fsk.old }
{
    let reply = step_lent(&mut l, s, ook, fsk);
    Answer { reply, lane: l }
}
