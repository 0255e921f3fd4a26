// Theory only: everything is in specs/.
#![tactic(auto)]
