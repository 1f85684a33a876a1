// Reading fields at their places: laws, in proofs/. A program that reads a layout of a fixed size tests the number of its bytes and
// their values, and takes each value from its place; one that reads values of any size goes on at the place behind each.
#![tactic(auto)]
