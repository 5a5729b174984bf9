//! The core: which entries each part has settled and which are in flight, as skeletons alone, and the steps by which many actors change that.
#![tactic(auto)]

mod core_laws;
mod entries;
mod lists;
mod machine;
mod rules;
mod skeleton;
mod step;
mod visible;

pub use core_laws::{
    a_lawful_start_is_kept, a_start_follows, changes_of_the_table_are_steps,
    lawful_worlds_are_lawful_together, lines_are_steps, steps_keep_the_lists,
    visible_places_are_those_of_the_messages,
};
pub use entries::{of_ack, of_coord, of_topic};
pub use machine::Core;
pub use skeleton::{Skeleton, Skeletons};
pub use step::{CoreRow, CoreStep, Told};
pub use txn_base::CoreEntry;
