//! The records of the five ledgers as bytes: every writer and every reader of their grammar.
#![tactic(auto)]

mod ack;
mod ack_write;
mod coord;
mod ends;
mod error;
mod fields;
mod name;
mod places;
mod record_laws;
mod snapshot;
mod topic;
mod topic_write;

pub use ack::read_ack;
pub use ack_write::{put_ack_marker, write_ack};
pub use coord::{put_coord, read_coord, write_coord};
pub use error::RecordError;
pub use name::{is_name, read_name, write_name};
pub use record_laws::{
    ack_records_are_one, ack_records_decode, ack_records_read_back, coord_records_are_one,
    coord_records_decode, coord_records_read_back, ends_records_are_one, name_records_are_one,
    name_records_decode, name_records_read_back, snapshot_batches_are_one, snapshots_read_back,
    topic_records_are_one, topic_records_decode, topic_records_read_back,
};
pub use snapshot::{ends_count, is_snapshot_record, read_snapshot, write_ends, write_head};
pub use topic::{read_topic, topic_body, topic_skeleton_of};
pub use topic_write::{marker_record, opened_record, plain_record, put_marker, write_topic};
