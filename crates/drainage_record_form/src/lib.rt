// What a record file is: its lines, their order and what they say. Specifications and laws only.
#![tactic(auto)]
