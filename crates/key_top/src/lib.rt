//! What stands in front of a key's newest committed version, and by how much the statistics change where something else comes there.
#![tactic(auto)]

mod delta;
mod gathering;
mod here;
mod laws;
mod top;
mod version;

pub use delta::{front_delta, moment_after};
pub use gathering::{append_points, delta_sum};
pub use here::{intent_shape, newest_here, top_here};
pub use laws::laws_of_tops;
pub use top::{Front, IntentShape, KeyTop, version_shape};
