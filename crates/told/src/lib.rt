// No code. `specs/` tells the definitions of `slices`, `refusals`, `parts`, `memory`, `device`, `chip`, `batch`, `report`, `image`, `bus` and `m25p` a second time; `proofs/` has what is told beside a whole array.
#![tactic(auto)]
