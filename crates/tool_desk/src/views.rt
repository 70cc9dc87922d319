//! Views of the reference of a dealing.

ghost use Rattle.std.specs.Prelude.{◌≡◌, ◌≤◌, ◌+◌, map, vec_capacity, vec_len, IfOk, IfErr, OnOk, IsTrue};
ghost use Rattle.reference_value.specs.Paged.{pages_of};
ghost use Rattle.tool_base.specs.Endings.{ending};
ghost use Rattle.tool_base.specs.Loads.{ReadsAs};
ghost use Rattle.tool_desk.specs.Files.{AreOfOneKey, HaveSizesOf, reference_name};
ghost use Rattle.tool_desk.specs.Reference.{IsReferenceOf, IsReferenceViewed};
ghost use Rattle.tool_desk.specs.Views.{AddsCells, AreOfSet, CellsOut, FailsReferences, TakesViews, ViewsBack};
ghost use Rattle.tool_desk.specs.Views.{WithViewsOut, view_state};

use crate::files::other_key;
use crate::{KeyFiles, test_same_key, view_reference};
use reference_value::Paged;
use share_files::RefHeader;
use std::alloc::Global;
use stream_io::Store;
use tool_base::Ending;

/// Takes views of the reference of a dealing, one after another, and reads and tests the head of each as soon as it has
/// the view: the head is of the key, and all heads are the same. If one is refused, all are given back.
pub fn view_cells<S: Store>(
    alloc: Global,
    store: &mut S,
    prefix: &str,
    files: &KeyFiles,
    count: u32,
) -> Result<(Vec<Paged<S::View>>, RefHeader), Ending>
    requires some { 1 ≤ count }
    ensures taken { TakesViews S.state store.old store.new result
        (λ run got. IsReferenceViewed run (reference_name prefix.now) got.1)
        (λ run. FailsReferences run prefix.now files.now) }
    ensures key { IfOk result (λ got. AreOfOneKey files.now got.1 × HaveSizesOf files.now got.1) }
    ensures cells { IfOk result (λ got. CellsOut (S.state store.old) (reference_name prefix.now)
        (view_state S.View.Pages.own S.View.Faults) got.0.items (S.state store.new)) }
    ensures fit { IfOk result (λ got. AreOfSet files.now.key.params got.1.plan got.0.items) }
    ensures counts { IfOk result (λ got. (vec_len got.0 ≡ count)
        × ((S.state store.new).disk_count ≡ (S.state store.old).disk_count)) }
{
    let Ok(mut cells) = Vec::with_capacity(alloc, count as usize) else {
        return Err(Ending::NoMemory);
    };
    let (view, header) = match view_reference(alloc, store, prefix) {
        Ok(viewed) => viewed,
        Err(end) => {
            cells.destroy_empty();
            return Err(end);
        }
    };
    if let Err(end) = test_same_key(alloc, prefix, files, &header) {
        cells.destroy_empty();
        store.end_view(view);
        return Err(end);
    }
    cells.push_reserved(Paged::new(&files.key.params, &header.plan, view));
    match view_others(alloc, store, prefix, files, &header, count - 1, &mut cells) {
        Ok(()) => Ok((cells, header)),
        Err(end) => {
            end_cells(cells, store);
            Err(end)
        }
    }
}

/// Takes `count` more views, each with this head, and puts their cells after the others into the room available.
fn view_others<S: Store>(
    alloc: Global,
    store: &mut S,
    prefix: &str,
    files: &KeyFiles,
    header: &RefHeader,
    count: u32,
    cells: &mut Vec<Paged<S::View>>,
) -> Result<(), Ending>
    requires room { vec_len cells.old + count ≤ vec_capacity cells.old }
    requires sizes { HaveSizesOf files.now header.now }
    requires fit { AreOfSet files.now.key.params header.now.plan cells.old.items }
    ensures adds { AddsCells (S.state store.old) (reference_name prefix.now)
        (view_state S.View.Pages.own S.View.Faults) cells.old.items cells.new.items (S.state store.new) }
    ensures fit { AreOfSet files.now.key.params header.now.plan cells.new.items }
    ensures counts { OnOk result ((vec_len cells.new ≡ vec_len cells.old + count)
        × ((S.state store.new).disk_count ≡ (S.state store.old).disk_count)) }
    ensures refused { WithViewsOut S.state store.old store.new (λ run.
        ReadsAs run (reference_name prefix.now) (IsReferenceOf header.now)
        → IfErr result (λ end. FailsReferences run prefix.now files.now (ending end))) }
{
    for _ in 0..count {
        let (view, other) = view_reference(alloc, store, prefix)?;
        if !is_same(header, &other) {
            store.end_view(view);
            return Err(other_key(alloc, prefix, ".ref", &other.id));
        }
        cells.push_reserved(Paged::new(&files.key.params, &header.plan, view));
    }
    Ok(())
}

/// Whether two heads are the same.
fn is_same(one: &RefHeader, other: &RefHeader) -> bool
    ensures { one.now ≡ other.now → IsTrue result }
{
    one == other
}

/// Gives the views of cells back, the last one first.
pub fn end_cells<S: Store>(mut cells: Vec<Paged<S::View>>, store: &mut S)
    ensures { ViewsBack (S.state store.old) (map (λ own. S.View.count (pages_of own)) cells.items)
        (S.state store.new) }
{
    while let Some(own) = cells.pop() {
        store.end_view(own.end());
    }
    cells.destroy_empty();
}
