// The rules on paper: the exact, doubled and quick plans as definitions that compute, over any number of ports N and any record
// width W, and what each promises: it covers, how long it is held, how many records it has, and that no covering plan is held less.
// Laws only: no function stands here. The planners' contracts cite the definitions, and how they are reached fast is left to them.
#![tactic(auto)]
