// The lists to try of document 01 that are proved, with no code in them: one table and one statement. See specs/.

#![tactic(auto)]
