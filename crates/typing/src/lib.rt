// The meaning of a closing, with no code in it: finite types, what satisfies the rules, most general types, cycles. See specs/.

#![tactic(auto)]
