// How soon a transaction can be confirmed, if it is not dead, and how soon a rival that is locked later.

#![tactic(auto)]

pub mod block;
pub mod deadline;
pub mod lock;
pub mod rival;
pub mod table;
