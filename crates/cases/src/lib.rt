// The starred cases of the requirements, proved of the definitions: see specs/Starred.antt and proofs/Starred.antt.
#![tactic(auto)]
