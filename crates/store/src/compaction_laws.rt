//! Laws of what compaction keeps, as a function with an empty body.

ghost use Rattle.std.specs.Prelude.{◌≡◌, List};
ghost use Rattle.outside.specs.Records.{Record as RequestRecord, latest_alone as latest_requests};
ghost use Rattle.store_codec.specs.Compaction.{compacted_requests};

/// What holds of the payloads that compaction keeps.
pub fn laws_of_request_compaction()
    // The latest of the latest records are the latest,
    ensures latest { (records : List RequestRecord) →
        latest_requests (latest_requests records) ≡ latest_requests records }
    // so compaction keeps of them what it keeps of all.
    ensures again { (records : List RequestRecord) →
        compacted_requests (latest_requests records) ≡ compacted_requests records }
{}
