//! Laws of the format, as the contract of a function that does nothing.
ghost use Rattle.run_block.specs.Runs.{BytesAreRead, ReadBytesAreOfRun};

/// The bytes of a run are read as that run, and bytes that are read as a run are the bytes of it. So one run has one spelling,
/// and [`parse`](crate::parse) takes no other bytes than those of a run.
pub fn laws_of_runs()
    ensures read { BytesAreRead }
    ensures back { ReadBytesAreOfRun }
{}
