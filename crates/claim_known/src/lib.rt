// Document 01's known positions and desk errors: see specs/. No functions.

#![tactic(auto)]
