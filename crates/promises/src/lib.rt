// What holds of the promise of every public function of every crate: theorems, no code.
#![tactic(auto)]
