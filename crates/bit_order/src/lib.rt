// Laws of lists in bit order, of the trees over them and of rows of leaves, in proofs/: there is no code here. A program that builds
// document 01's tree over a sorted range needs them, in a handset's audit as in a server's tree.
#![tactic(auto)]
