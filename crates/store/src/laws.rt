//! The laws of the store.

ghost use Rattle.std.specs.Prelude.{◌≡◌, []};
ghost use Rattle.base.specs.declared.file.FileName.{FileName};
ghost use Rattle.outside.specs.Disks.{DiskState, IsDurable, reads_of};
ghost use Rattle.outside.specs.Records.{latest as latest_request};
ghost use Rattle.store.specs.Held.{latest_held};
ghost use Rattle.store.specs.Stored.{IsRequestStoreInStep, RequestStoreState, requests_in};

/// What the store holds before its first commit.
pub fn laws_of_disks_without_requests()
    // A disk whose sides have no byte holds no record.
    ensures none { requests_in (record { a = []; b = [] }) ≡ [] }
{}

/// What holds where a store is in step with a disk.
pub fn laws_of_request_stores()
    // A stop can leave what reads give,
    ensures durable { (store : RequestStoreState) (disk : DiskState) →
        IsRequestStoreInStep store disk → IsDurable disk }
    // and the latest record of each name is the disk's.
    ensures held { (store : RequestStoreState) (disk : DiskState) (name : FileName) →
        IsRequestStoreInStep store disk →
        latest_held store.held.payloads name ≡ latest_request name (requests_in (reads_of disk)) }
{}
