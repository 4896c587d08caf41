// The game with slips of the arm, on places with the slips that are left: what it is, its plan in bytes and what the calls promise stand in specs/, its
// laws in proofs/.
#![tactic(auto)]
