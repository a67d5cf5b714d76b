// Laws over the calls that go on by a plan.
ghost use Rattle.std.specs.Prelude.{ℕ, List, IsTrue, false};
ghost use Rattle.link_base.specs.Shelf.{Shown};
ghost use Rattle.link_base.specs.Sink.{Taken};
ghost use Rattle.link_run_feed.specs.declared.status.Status.{Status};
ghost use Rattle.link_run_feed.specs.Promises.{Promises};
ghost use Rattle.link_run_plan.specs.Check.{check};
ghost use Rattle.link_run_plan.specs.ChecksPlan.{ChecksPlan};

/// A call of `check` that keeps its promises says yes exactly of a plan that meets the rules, and else its first failure.
pub fn plans_are_checked()
    ensures { (name : List ℕ) (shelf shelf' : Shown) (sink sink' : Taken) (status : Status)
        → Promises false (check name shelf.held) shelf shelf' sink sink' status → IsTrue shelf.tells → ChecksPlan name shelf.held sink sink' status }
{}
