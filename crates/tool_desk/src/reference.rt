//! The reference of a dealing, which is read through a view.

ghost use Rattle.std.specs.Prelude.{◌≡◌, ◌≢◌, ◌⊎◌, Err, IfOk, IsTrue};
ghost use Rattle.share_files.specs.Sets.{CanBeDealt};
ghost use Rattle.share_files.specs.declared.faults.FileFault.{FileFault};
ghost use Rattle.stream_io.specs.Store.{RisesWhere, Viewed};
ghost use Rattle.tool_base.specs.Ending as spec;
ghost use Rattle.tool_base.specs.Endings.{ending};
ghost use Rattle.tool_desk.specs.Files.{reference_name};
ghost use Rattle.tool_desk.specs.Heads.{end_of_head};
ghost use Rattle.tool_desk.specs.Reference.{FailsReference, IsNoReference, IsReferenceOf, IsReferenceViewed};
ghost use Rattle.tool_desk.specs.Views.{TakesViews, view_state};
ghost use Rattle.tool_desk.specs.declared.reference.HeadFault.{HeadFault};

use crate::files::file_name;
use disk_trait::Pages;
use share_files::{FileFault, HEAD, RefHeader, read_ref_header};
use std::alloc::Global;
use stream_io::{CallFault, Store};
use tool_base::{Ending, unreadable};

/// Takes a view of the reference of a dealing, and reads and tests its head. If it refuses, the view is given back.
pub fn view_reference<S: Store>(
    alloc: Global,
    store: &mut S,
    prefix: &str,
) -> Result<(S::View, RefHeader), Ending>
    ensures taken { TakesViews S.state store.old store.new result
        (λ run got. IsReferenceViewed run (reference_name prefix.now) got.1)
        (λ run. FailsReference run (reference_name prefix.now)) }
    ensures viewed { IfOk result (λ got. Viewed (S.state store.old) (reference_name prefix.now)
        (view_state S.View.Pages.own S.View.Faults got.0) (S.state store.new)) }
    ensures reads { IfOk result (λ got. IsTrue (S.View.told got.0) → IsReferenceOf got.1 (S.View.reads got.0)) }
{
    let name = file_name(alloc, prefix, ".ref")?;
    let mut view = match store.view(alloc, name.as_str()) {
        Ok(view) => view,
        Err(CallFault::Failed) => return Err(Ending::StoreFailed),
        Err(CallFault::NoMemory) => return Err(Ending::NoMemory),
    };
    match read_head(&mut view) {
        Ok(header) => Ok((view, header)),
        Err(fault) => {
            store.end_view(view);
            Err(end_of_head(alloc, name.as_str(), fault))
        }
    }
}

/// Why the head of a reference was not read.
#[derive(Clone, Copy)]
enum HeadFault {
    /// The pages are no reference.
    File(FileFault),
    /// A call of the pages failed.
    Device,
}

/// Reads the head of the reference that is on these pages.
fn read_head<V: Pages>(pages: &mut V) -> Result<RefHeader, HeadFault>
    ensures reads { IsTrue (V.told pages.old) → IfOk result (λ header. IsReferenceOf header (V.reads pages.old)) }
    ensures dealt { IfOk result (λ header. CanBeDealt header.params) }
    ensures file { (fault : FileFault) → result ≡ Err (HeadFault.File fault)
        → IsTrue (V.told pages.old) → IsNoReference fault (V.reads pages.old) }
    ensures succeeds { IsTrue (V.told pages.old) → IsTrue (V.steady pages.old) → result ≢ Err HeadFault.Device }
    ensures cause { RisesWhere (result ≡ Err HeadFault.Device) (V.count pages.old) (V.count pages.new) }
    ensures same { IsTrue (V.told pages.old) → V.reads pages.new ≡ V.reads pages.old }
    ensures stays_told { V.told pages.new ≡ V.told pages.old }
    ensures stays_steady { V.steady pages.new ≡ V.steady pages.old }
{
    let Ok(length) = pages.len() else {
        return Err(HeadFault::Device);
    };
    if length < HEAD as u64 {
        return Err(HeadFault::File(FileFault::Length {
            got: length,
            want: HEAD as u64,
        }));
    }
    let mut head = [0; HEAD];
    let Ok(()) = pages.read_at(0, &mut head) else {
        return Err(HeadFault::Device);
    };
    match read_ref_header(&head, length) {
        Ok(header) => Ok(header),
        Err(fault) => Err(HeadFault::File(fault)),
    }
}

/// The end if the head of the file of this name was not read.
fn end_of_head(alloc: Global, name: &str, fault: HeadFault) -> Ending
    ensures { (ending result ≡ spec.NoMemory) ⊎ (ending result ≡ end_of_head name.now fault) }
{
    match fault {
        HeadFault::File(fault) => unreadable(alloc, name, fault.number()),
        HeadFault::Device => Ending::DeviceFailed,
    }
}
