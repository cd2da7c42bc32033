// A run and its readings, computed: specs/Sample.antt.
#![tactic(auto)]
