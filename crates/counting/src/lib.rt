// Counting: finite sums over 0 .. n - 1, the largest of n numbers, how many ports a set has, the pigeonhole, and Hall's condition
// for a matrix whose lines all have one sum. Laws only, on whole numbers and for every n: no function stands here, and nothing is
// said of a switch. The definitions are in specs/, their laws in proofs/ under the same names.
