// What a caller gets: for each public call one theorem from its contract to what the answer is worth, in the user's words, and the
// theorems between calls, such as that the checker passes what each planner wrote. The twelve small plans of the specification are here
// too, as one table with one claim over it. Laws only, above every call: no function stands here, and nothing but contracts and the
// definitions that they cite is relied on.
#![tactic(auto)]
