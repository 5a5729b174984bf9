//! The laws of the grammar, each as the contract of a call that does nothing.
ghost use Rattle.txn_records.specs.Acks.{AckRecordsDecode, AckRecordsAreOne, AckRecordsReadBack};
ghost use Rattle.txn_records.specs.Catalog.{NameRecordsDecode, NameRecordsAreOne, NameRecordsReadBack};
ghost use Rattle.txn_records.specs.Coords.{CoordRecordsDecode, CoordRecordsAreOne, CoordRecordsReadBack};
ghost use Rattle.txn_records.specs.SnapshotLaws.{EndsRecordsAreOne, SnapshotBatchesAreOne, SnapshotsReadBack};
ghost use Rattle.txn_records.specs.Topics.{TopicRecordsDecode, TopicRecordsAreOne, TopicRecordsReadBack};

/// The entry that is read off a topic record's bytes is the one that it is the record of.
pub fn topic_records_decode()
    ensures { TopicRecordsDecode }
{}

/// A topic's record stands for one entry.
pub fn topic_records_are_one()
    ensures { TopicRecordsAreOne }
{}

/// The record of a topic's entry is read as that entry.
pub fn topic_records_read_back()
    ensures { TopicRecordsReadBack }
{}

/// The entry that is read off the bytes of a record of the coordinator's log is the one that it is the record of.
pub fn coord_records_decode()
    ensures { CoordRecordsDecode }
{}

/// A record of the coordinator's log stands for one entry.
pub fn coord_records_are_one()
    ensures { CoordRecordsAreOne }
{}

/// The record of a coordinator's entry is read as that entry.
pub fn coord_records_read_back()
    ensures { CoordRecordsReadBack }
{}

/// The name that is read off the bytes of a record of the catalog is the one that it is the record of.
pub fn name_records_decode()
    ensures { NameRecordsDecode }
{}

/// A record of the catalog stands for one name.
pub fn name_records_are_one()
    ensures { NameRecordsAreOne }
{}

/// The record of a name is read as that name.
pub fn name_records_read_back()
    ensures { NameRecordsReadBack }
{}

/// The entry that is read off the bytes of a record of a subscription's ledger is the one that it is the record of.
pub fn ack_records_decode()
    ensures { AckRecordsDecode }
{}

/// A record of a subscription's ledger stands for one entry.
pub fn ack_records_are_one()
    ensures { AckRecordsAreOne }
{}

/// The record of a subscription's entry is read as that entry.
pub fn ack_records_read_back()
    ensures { AckRecordsReadBack }
{}

/// A record of a snapshot's ends stands for one list of them.
pub fn ends_records_are_one()
    ensures { EndsRecordsAreOne }
{}

/// A batch of a snapshot file stands for one snapshot.
pub fn snapshot_batches_are_one()
    ensures { SnapshotBatchesAreOne }
{}

/// The batch of a snapshot is read as that snapshot.
pub fn snapshots_read_back()
    ensures { SnapshotsReadBack }
{}
