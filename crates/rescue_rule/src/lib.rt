// Rescuing a damaged plan, on paper (§19): why a record is dropped, what is kept, the list of what was dropped, and the plan that is
// written, the kept records and then the exact plan of the rest; over any record width W and edition byte e.
// What it promises: the rescued plan is sound and covers, a plan that needs no rescue comes back as it was, the list names the dropped
// records alone, in order, each with the first reason that applies, and kept bytes stand as they stood. Laws only: no function stands here.
#![tactic(auto)]
