//! The commitments of a dealing, which are read through a view.

ghost use Rattle.std.specs.Prelude.{◌≡◌, ◌⊎◌, IfOk, IsTrue};
ghost use Rattle.share_blame.specs.Commits.{AreOf, pages_of};
ghost use Rattle.stream_io.specs.Store.{Viewed};
ghost use Rattle.tool_base.specs.Ending as spec;
ghost use Rattle.tool_base.specs.Endings.{ending};
ghost use Rattle.tool_blame.specs.Commits.{AreCommitsOf, AreCommitsViewed, FailsCommits, commits_name};
ghost use Rattle.tool_blame.specs.Commits.{end_of_commits};
ghost use Rattle.tool_desk.specs.Views.{TakesViews, view_state};

use share_blame::{Commits, CommitsFault};
use share_files::RefHeader;
use std::alloc::Global;
use stream_io::{CallFault, Store};
use tool_base::{Ending, unreadable};
use tool_desk::file_name;

/// Takes a view of the commitments of a dealing, and tests that their head goes with the reference of this header. If
/// it refuses, the view is given back.
pub fn view_commits<S: Store>(
    alloc: Global,
    store: &mut S,
    prefix: &str,
    header: &RefHeader,
) -> Result<Commits<S::View>, Ending>
    ensures taken { TakesViews S.state store.old store.new result
        (λ run _. AreCommitsViewed run (commits_name prefix.now) header.now)
        (λ run. FailsCommits run (commits_name prefix.now) header.now) }
    ensures fits { IfOk result (AreOf header.now.params header.now.plan) }
    ensures viewed { IfOk result (λ commits. Viewed (S.state store.old) (commits_name prefix.now)
        (view_state S.View.Pages.own S.View.Faults (pages_of commits)) (S.state store.new)) }
    ensures reads { IfOk result (λ commits. IsTrue (S.View.told (pages_of commits))
        → AreCommitsOf header.now (S.View.reads (pages_of commits))) }
{
    let name = file_name(alloc, prefix, ".commit")?;
    let view = match store.view(alloc, name.as_str()) {
        Ok(view) => view,
        Err(CallFault::Failed) => return Err(Ending::StoreFailed),
        Err(CallFault::NoMemory) => return Err(Ending::NoMemory),
    };
    match Commits::load(view, header) {
        Ok(commits) => Ok(commits),
        Err((view, fault)) => {
            store.end_view(view);
            Err(end_of_commits(alloc, name.as_str(), fault))
        }
    }
}

/// The end if the file of this name has no commitments that go with the reference.
fn end_of_commits(alloc: Global, name: &str, fault: CommitsFault) -> Ending
    ensures { (ending result ≡ spec.NoMemory) ⊎ (ending result ≡ end_of_commits name.now fault) }
{
    match fault {
        CommitsFault::File(fault) => unreadable(alloc, name, fault.number()),
        CommitsFault::Device => Ending::DeviceFailed,
    }
}
