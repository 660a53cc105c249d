// What the planners share: the order of their refusals and what a plan leaves in the lent buffer, whatever the rule that makes the plan.
// Laws only: a planner's contract cites `planned` with its own rule's plan, and its proof the case that each of its returns is.
#![tactic(auto)]
