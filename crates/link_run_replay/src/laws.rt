// Laws over all captures that are replayed.
ghost use Rattle.std.specs.Prelude.{◌≡◌, ℕ, List, IsTrue, true};
ghost use Rattle.link_base.specs.Shelf.{Shown};
ghost use Rattle.link_base.specs.Sink.{Taken};
ghost use Rattle.link_run_feed.specs.declared.status.Status.{Status as End};
ghost use Rattle.link_run_feed.specs.declared.status.Status.TheVariants.{Done};
ghost use Rattle.link_run_feed.specs.Promises.{Promises};
ghost use Rattle.link_run_replay.specs.Replay.{replay};
ghost use Rattle.link_run_replay.specs.WholeText.{TextIsWhole, ReplaysCapture};

/// What is printed as the lines of a capture come is what all its records together give: of a capture that is good to its end
/// the whole text, and of any other the samples before the last good record.
pub fn text_is_whole()
    ensures { TextIsWhole }
{}

/// A call of `replay` that keeps its promises and is done has printed what all records of its capture give.
pub fn captures_are_replayed()
    ensures { (plan capture : List ℕ) (shelf shelf' : Shown) (sink sink' : Taken) (status : End)
        → Promises true (replay plan capture shelf.held) shelf shelf' sink sink' status → IsTrue shelf.tells → status ≡ Done
        → ReplaysCapture plan capture shelf.held sink sink' }
{}
