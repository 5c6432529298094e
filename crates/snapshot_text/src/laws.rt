//! What is so of the texts of snapshots, in a function that does nothing: it ensures a law.
ghost use Rattle.snapshot_text.specs.Reading.{SnapshotsAreOne};

/// One text is that of one snapshot alone.
pub fn snapshots_are_one()
    ensures { SnapshotsAreOne }
{}
