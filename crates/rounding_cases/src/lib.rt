// The vectors of N9, whose lines the checker computes from the definitions. There is no code here.

#![tactic(auto)]
