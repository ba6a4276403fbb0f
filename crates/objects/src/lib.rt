// Policies and records judged and held in one walk, whatever the order of their members: each part is held where the
// walk comes to it, and the parts of an object are put in the order of its layout when all are there. Names have to be
// written plainly; whatever else a text is, this gives it up, and tells of a policy where.
#![tactic(auto)]

pub mod contexts;
pub mod filling;
pub mod gathering;
pub mod leaving;
pub mod members;
pub mod policies;
pub mod records;
pub mod settling;
pub mod statements;
