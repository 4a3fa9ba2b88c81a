// Theorems only: what a sound bundle gives to those who read it, and that its decoding loses nothing.
#![tactic(auto)]
