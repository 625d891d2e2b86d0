//! The first fault of a chip and of the chips in it, by a stack of the chips in whose texts the check stands.

ghost use Rattle.std.specs.Prelude.{◌≡◌, ℕ, ◌+◌, ◌*◌, ◌<◌, ◌≤◌, List, ◌∷◌, ◌++◌, [], OnOk, IfOk, IfErr, MatchOption, Some, length, slice_get, slice_set, take, vec_len, replicate, count_by, false};
ghost use Rattle.hdl_tree.specs.Chips.{parts_of};
ghost use Rattle.hdl_tree.specs.declared.library.Entry.{Entry};
ghost use Rattle.hdl_check.specs.Inner.Marked.{HasMarks};
ghost use Rattle.hdl_check.specs.Faults.{ports_of, bits_driven, drivers_of, connection_fault_in};
ghost use Rattle.hdl_check.specs.Locations.{IsFaultless, IsFirstFault};
ghost use Rattle.hdl_check.specs.Inner.Progress.{IsCatalog, chips_of, is_new, is_open, PartsFail, PartFails, FailsInside, IsProgress, AreOpen, FindsFirst, IsInner};
ghost use Rattle.hdl_check.specs.Inner.Frames.{IsWired, IsBegun, IsFrame, IsOneFurther, HasSameChip, WaitsFor, IsSearch};
ghost use Rattle.hdl_check.specs.Whole.{Tells};
ghost use Rattle.hdl_check.specs.declared.stage.Stage.TheVariants.{New, Open, Done};

use crate::catalog::{Catalog, net_table};
use crate::check::Scope;
use crate::fault::{ElabFault, FaultKind, fault_of};
use crate::marks::Marks;
use crate::search::{check_connections, check_head};
use crate::stage::Stage;
use hdl_tree::{Body, Entry, Part, find_end};
use name_table::Table;
use std::alloc::{AllocError, Global};

/// A chip in whose text the check stands.
pub(crate) struct Frame<'a> {
    pub number: usize,
    pub entry: &'a Entry,
    pub parts: &'a [Part],
    /// The place of the part at which the check stands; those before it are right.
    pub place: usize,
    /// The widths of the nets that the parts drive.
    pub nets: Table<'a, u32>,
    /// The bits that the parts before drive.
    pub driven: Marks<'a>,
}

// By hand, so that whoever drops one calls this.
impl Drop for Frame<'_> {
    fn drop(self) {
        let Frame {
            number: _,
            entry: _,
            parts: _,
            place: _,
            nets: _,
            driven: _,
        } = self;
    }
}

/// The parts of a chip; an end has none.
fn parts_in<'a>(catalog: &Catalog<'a>, entry: &'a Entry) -> &'a [Part]
    ensures { result.now ≡ parts_of (chips_of catalog.now) entry.now }
{
    if find_end(catalog.memories, entry).is_some() {
        return &[];
    }
    match &entry.chip.body {
        Body::Parts(parts) => parts.as_slice(),
        Body::Builtin(_, _) => &[],
    }
}

/// Chip k, whose pins and whose body are right, at its first part.
fn begin<'a>(alloc: Global, catalog: &Catalog<'a>, k: usize) -> Result<Frame<'a>, ElabFault>
    requires catalog { IsCatalog catalog.now }
    requires there { k < length catalog.now.entries.now }
    ensures begun { IfOk result (IsBegun (chips_of catalog.now) k) }
    ensures fault { IfErr result
        (λ e. (outer : List (List ℕ)) → Tells (FailsInside (chips_of catalog.now) outer k) e) }
{
    let entry = &catalog.entries[k];
    check_head(alloc, catalog, entry)?;
    let parts = parts_in(catalog, entry);
    Ok(Frame {
        number: k,
        entry,
        parts,
        place: 0,
        nets: net_table(alloc, catalog, parts)?,
        driven: Marks::new(alloc),
    })
}

/// The chip of a part, which is to be there and not open.
fn inner_chip<'a>(
    alloc: Global,
    catalog: &Catalog<'a>,
    stages: &[Stage],
    entry: &'a Entry,
    part: &'a Part,
) -> Result<usize, ElabFault>
    requires catalog { IsCatalog catalog.now }
    requires long { length stages.now ≡ length catalog.now.entries.now }
    ensures inner { IfOk result (IsInner (chips_of catalog.now) part.now) }
    ensures closed { IfOk result (λ k. is_open (slice_get stages.now k) ≡ false) }
    ensures fault { IfErr result
        (λ e. (names : List (List ℕ)) (i : ℕ) → AreOpen (chips_of catalog.now) stages.now names
        → slice_get (parts_of (chips_of catalog.now) entry.now) i ≡ Some part.now
        → Tells (PartFails (chips_of catalog.now) names entry.now i) e) }
{
    let name = part.chip.as_bytes();
    let chip = entry.name.as_bytes();
    match catalog.place(name) {
        None => Err(fault_of(alloc, FaultKind::UnknownChip, chip, name)),
        Some(k) => {
            if stages[k].is_open() {
                return Err(fault_of(alloc, FaultKind::Recursive, chip, name));
            }
            Ok(k)
        }
    }
}

/// The connections of the part at which the check stands, whose chip is chip k.
fn check_part<'a>(
    alloc: Global,
    catalog: &Catalog<'a>,
    frame: &mut Frame<'a>,
    part: &'a Part,
    k: usize,
) -> Result<(), ElabFault>
    requires catalog { IsCatalog catalog.now }
    requires wired { IsWired (chips_of catalog.now) frame.old }
    requires there { slice_get (parts_of (chips_of catalog.now) frame.old.entry.now) frame.old.place
        ≡ Some part.now }
    requires inner { IsInner (chips_of catalog.now) part.now k }
    ensures wired { OnOk result (IsWired (chips_of catalog.now) frame.new) }
    ensures further { OnOk result (IsOneFurther frame.old frame.new) }
    ensures fault { (inner : Entry) → slice_get catalog.now.entries.now k ≡ Some inner
        → FindsFirst (connection_fault_in (chips_of catalog.now) frame.old.entry.now frame.old.place
        (ports_of inner.chip) part.now.connections) result }
{
    let scope = Scope {
        chip: frame.entry.name.as_bytes(),
        own: &catalog.ports[frame.number],
        nets: &frame.nets,
    };
    check_connections(
        alloc,
        catalog,
        frame.entry,
        scope,
        frame.place,
        &catalog.entries[k],
        &catalog.ports[k],
        part.connections.as_slice(),
        &mut frame.driven,
    )?;
    frame.place += 1;
    Ok(())
}

/// Checks the parts of a chip from where the check stands on, up to one whose chip is not begun: the number of that.
fn advance<'a>(
    alloc: Global,
    catalog: &Catalog<'a>,
    stages: &[Stage],
    frame: &mut Frame<'a>,
) -> Result<Option<usize>, ElabFault>
    requires catalog { IsCatalog catalog.now }
    requires long { length stages.now ≡ length catalog.now.entries.now }
    requires frame { IsFrame (chips_of catalog.now) stages.now frame.old }
    ensures frame { OnOk result (IsFrame (chips_of catalog.now) stages.now frame.new) }
    ensures same { OnOk result (HasSameChip frame.old frame.new) }
    ensures next { IfOk result (λ next. MatchOption next
        (length (parts_of (chips_of catalog.now) frame.new.entry.now) ≤ frame.new.place)
        (λ k. WaitsFor (chips_of catalog.now) frame.new k × (slice_get stages.now k ≡ Some New))) }
    ensures fault { IfErr result
        (λ e. (names : List (List ℕ)) (done : ℕ) → AreOpen (chips_of catalog.now) stages.now names
        → IsProgress (chips_of catalog.now) stages.now done
        → Tells (PartsFail (chips_of catalog.now) names frame.old.entry.now) e) }
{
    'parts: while frame.place < frame.parts.len() {
        let part = &frame.parts[frame.place];
        let k = inner_chip(alloc, catalog, stages, frame.entry, part)?;
        if stages[k].is_new() {
            return Ok(Some(k));
        }
        check_part(alloc, catalog, frame, part, k)?;
    }
    Ok(None)
}

/// Chip k is done.
fn close(stages: &mut [Stage], order: &mut Vec<usize>, k: usize) -> Result<(), AllocError>
    requires { k < length stages.old }
    ensures stages { OnOk result (stages.new ≡ slice_set stages.old k (Done (vec_len order.old))) }
    ensures order { OnOk result (vec_len order.new ≡ vec_len order.old + 1) }
{
    stages[k] = Stage::Done(order.len());
    order.push(k)?;
    Ok(())
}

fn put<'a>(frames: &mut Vec<Frame<'a>>, frame: Frame<'a>) -> Result<(), AllocError>
    ensures { OnOk result (frames.new.items ≡ frames.old.items ++ frame.entry ∷ []) }
{
    frames.push(frame)?;
    Ok(())
}

/// A chip is opened, and on top of the stack.
fn enter<'a>(
    stages: &mut [Stage],
    frames: &mut Vec<Frame<'a>>,
    frame: Frame<'a>,
) -> Result<(), AllocError>
    requires { frame.number < length stages.old }
    ensures stages { OnOk result (stages.new ≡ slice_set stages.old frame.entry.number Open) }
    ensures frames { OnOk result (frames.new.items ≡ frames.old.items ++ frame.entry ∷ []) }
{
    stages[frame.number] = Stage::Open;
    put(frames, frame)
}

/// Goes on with the chip on top of the stack: it is done, or one of its parts has a chip that is not begun, and that is opened.
fn step<'a>(
    alloc: Global,
    catalog: &Catalog<'a>,
    stages: &mut [Stage],
    order: &mut Vec<usize>,
    frames: &mut Vec<Frame<'a>>,
    frame: Frame<'a>,
) -> Result<(), ElabFault>
    requires catalog { IsCatalog catalog.now }
    requires search { (top : ℕ) × IsSearch (chips_of catalog.now) top stages.old (vec_len order.old)
        (frames.old.items ++ frame ∷ []) }
    ensures search { OnOk result ((top : ℕ) → IsSearch (chips_of catalog.now) top stages.old
        (vec_len order.old) (frames.old.items ++ frame.entry ∷ [])
        → IsSearch (chips_of catalog.now) top stages.new (vec_len order.new) frames.new.items) }
    ensures less { OnOk result (2 * count_by is_new stages.new + length frames.new.items
        < 2 * count_by is_new stages.old + (length frames.old.items + 1)) }
    ensures fault { IfErr result (λ e. (top : ℕ) → IsSearch (chips_of catalog.now) top stages.old
        (vec_len order.old) (frames.old.items ++ frame.entry ∷ [])
        → Tells (FailsInside (chips_of catalog.now) [] top) e) }
{
    let mut frame = frame;
    match advance(alloc, catalog, stages, &mut frame)? {
        None => {
            close(stages, order, frame.number)?;
            Ok(())
        }
        Some(k) => {
            let inner = begin(alloc, catalog, k)?;
            put(frames, frame)?;
            enter(stages, frames, inner)?;
            Ok(())
        }
    }
}

fn new_stages(alloc: Global, n: usize) -> Result<Vec<Stage>, AllocError>
    ensures { IfOk result (λ v. v.items ≡ replicate n New) }
{
    vec![in alloc; Stage::New; n]
}

/// The first fault of chip k and of the chips in it; else the places of these chips, each after those in it.
pub(crate) fn check_all<'a>(
    alloc: Global,
    catalog: &Catalog<'a>,
    k: usize,
) -> Result<Vec<usize>, ElabFault>
    requires catalog { IsCatalog catalog.now }
    requires there { k < length catalog.now.entries.now }
    ensures fine { IfOk result
        (λ _. (entry : Entry) → slice_get catalog.now.entries.now k ≡ Some entry
        → IsFaultless (chips_of catalog.now) (entry.name ∷ []) entry) }
    ensures fault { IfErr result (Tells (FailsInside (chips_of catalog.now) [] k)) }
{
    let mut stages = new_stages(alloc, catalog.entries.len())?;
    let mut order = Vec::new(alloc);
    let mut frames = Vec::new(alloc);
    let first = begin(alloc, catalog, k)?;
    enter(&mut stages, &mut frames, first)?;
    'frames: while let Some(frame) = frames.pop() {
        step(alloc, catalog, &mut stages, &mut order, &mut frames, frame)?;
    }
    Ok(order)
}
