// The loop of calls with slips of the arm, turn after turn: what it is stands in specs/, what is promised of it in proofs/.
#![tactic(auto)]
