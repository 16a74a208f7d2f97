//! The laws of the requests that stand for true records of views, as functions with empty bodies.

ghost use Rattle.std.specs.Prelude.{◌≡◌, true, List, All};
ghost use Rattle.base.specs.declared.child.Request.{Request};
ghost use Rattle.base.specs.declared.child.Exit.{Exit};
ghost use Rattle.base.specs.Graphs.{IsGraph};
ghost use Rattle.store_form_2.specs.declared.kept_view.Record.{Record as ViewRecord};
ghost use Rattle.store_form_2.specs.Migrating.{migrated_requests};
ghost use Rattle.run_spec.specs.Faithful.{IsFaithful, IsTrueRecord};
ghost use Rattle.outside.specs.Disks.{Image};
ghost use Rattle.store_journal.specs.Forms.{older_counts};
ghost use Rattle.store_journal.specs.Payloads.{payloads};
ghost use Rattle.store_form_2.specs.NodeContents.{contents_of as node_contents_of};
ghost use Rattle.store.specs.Stored.{requests_in};
ghost use Rattle.headline.specs.TrueViews.{IsTrueView};

/// What is true of the requests that stand for records of views.
pub fn laws_of_true_migration()
    // Where all records of views are true, the compiler answers each request with code 0 and the artefact.
    ensures true_requests { (answer : Request → Exit) (records : List ViewRecord) →
        All (λ kept. IsGraph kept.view) records →
        All (IsTrueView answer) records →
        All (IsTrueRecord answer) (migrated_requests records) }
{}

/// What holds of a disk on which form 2 alone is live.
pub fn laws_of_old_stores()
    // Its records are the requests that stand for the records of views that it has,
    ensures taken { (image : Image) → older_counts 3 2 image ≡ true →
        requests_in image ≡ migrated_requests (node_contents_of (payloads 2 image)).records }
    // and where all of those are true, so are these.
    ensures faithful { (answer : Request → Exit) (image : Image) →
        older_counts 3 2 image ≡ true →
        All (IsTrueView answer) (node_contents_of (payloads 2 image)).records →
        IsFaithful answer requests_in image }
{}
