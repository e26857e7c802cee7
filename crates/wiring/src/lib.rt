// The wiring rule of two layers on a grid: layouts, what is joined, and when a layout is good. See specs/. There is no
// code here.
#![tactic(auto)]
