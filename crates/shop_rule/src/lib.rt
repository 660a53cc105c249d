// The open-shop rule on paper (§21), for a switch whose ports move on their own: the plan as a definition that computes, and what it is
// worth: one task for each pair with slots, a port never in two, in order, and each over within the task times of its two ports, its
// own counted once. Laws only: no function stands here. The planner's contract cites the definition.
#![tactic(auto)]
