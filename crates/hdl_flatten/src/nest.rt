//! The chips of a tree, each once, after those in it.

ghost use Rattle.std.specs.Prelude.{◌≡◌, ℕ, ◌+◌, ◌<◌, ◌++◌, ◌∷◌, [], OnOk, IfOk, IsSome, MatchOption, Some, None, length, slice_get, slice_set, replicate};
ghost use Rattle.hdl_tree.specs.Chips.{find_entry, parts_of};
ghost use Rattle.hdl_check.specs.Inner.Progress.{IsCatalog, chips_of};
ghost use Rattle.hdl_check.specs.Whole.{TopIsFaultless};
ghost use Rattle.hdl_flatten.specs.Ends.{EndsHavePins};
ghost use Rattle.hdl_flatten.specs.Inner.Nests.{IsSearch, IsNestOf};
ghost use Rattle.hdl_flatten.specs.Inner.Visits.{IsBegun, IsVisit, PartsAreThere, HasSameChip, IsUnplaced, IsSettled, IsStack, work_left};

use hdl_check::Catalog;
use hdl_tree::{Body, Entry, Part, find_end};
use std::alloc::{AllocError, Global};

/// A chip of a tree: its number in the library, and the places of its parts' chips among those of the tree.
#[derive(Drop)]
pub(crate) struct Nested {
    pub number: usize,
    pub parts: Vec<usize>,
}

/// The chips of a tree, each once, after those in it, and the place of the chip whose tree it is.
pub(crate) struct Nest {
    pub chips: Vec<Nested>,
    pub top: usize,
}

// By hand, so that whoever drops one calls this.
impl Drop for Nest {
    fn drop(self) {
        let Nest { chips: _, top: _ } = self;
    }
}

/// The parts of a chip; an end has none.
pub(crate) fn parts_in<'a>(catalog: &Catalog<'a>, entry: &'a Entry) -> &'a [Part]
    ensures { result.now ≡ parts_of (chips_of catalog.now) entry.now }
{
    if find_end(catalog.memories, entry).is_some() {
        return &[];
    }
    match &entry.chip.body {
        Body::Parts(parts) => parts.as_slice(),
        Body::Builtin(_, _) => &[],
    }
}

/// Chip k of the library.
pub(crate) fn entry_at<'a>(catalog: &Catalog<'a>, k: usize) -> &'a Entry
    requires { k < length catalog.now.entries.now }
    ensures { slice_get catalog.now.entries.now k ≡ Some result.now }
{
    &catalog.entries[k]
}

/// The number of a chip that is there.
fn number_of<'a>(catalog: &Catalog<'a>, name: &'a [u8]) -> usize
    requires catalog { IsCatalog catalog.now }
    requires there { IsSome (find_entry catalog.now.entries.now name.now) }
    ensures within { result < length catalog.now.entries.now }
    ensures found { find_entry catalog.now.entries.now name.now
        ≡ slice_get catalog.now.entries.now result }
{
    match catalog.place(name) {
        None => unreachable!(),
        Some(k) => k,
    }
}

/// Chip k stands at this place.
fn set_rank(ranks: &mut [Option<usize>], k: usize, rank: usize)
    requires { k < length ranks.old }
    ensures { ranks.new ≡ slice_set ranks.old k (Some rank) }
{
    ranks[k] = Some(rank);
}

/// The chips that stand, each after those in it, and the place there of each chip of the library, if it stands.
#[derive(Drop)]
pub(crate) struct Search {
    pub ranks: Vec<Option<usize>>,
    pub chips: Vec<Nested>,
}

/// A chip whose parts are gone over: those that are to come, and the places of the chips of those before.
#[derive(Drop)]
pub(crate) struct Visit<'a> {
    pub number: usize,
    pub entry: &'a Entry,
    pub rest: &'a [Part],
    pub places: Vec<usize>,
}

/// Chip k at its first part.
fn begin<'a>(alloc: Global, catalog: &Catalog<'a>, k: usize) -> Visit<'a>
    requires { k < length catalog.now.entries.now }
    ensures { IsBegun (chips_of catalog.now) k result }
{
    let entry = entry_at(catalog, k);
    Visit {
        number: k,
        entry,
        rest: parts_in(catalog, entry),
        places: Vec::new(alloc),
    }
}

/// Goes over the parts of a chip, up to one whose chip does not stand yet: the number of that.
fn go_on<'a>(
    catalog: &Catalog<'a>,
    search: &Search,
    visit: &mut Visit<'a>,
) -> Result<Option<usize>, AllocError>
    requires catalog { IsCatalog catalog.now }
    requires search { IsSearch
        (chips_of catalog.now) search.now.ranks.items search.now.chips.items }
    requires visit { IsVisit (chips_of catalog.now) search.now.chips.items visit.old }
    requires parts { PartsAreThere (chips_of catalog.now) visit.old.entry.now }
    ensures visit { OnOk result (IsVisit (chips_of catalog.now) search.now.chips.items visit.new) }
    ensures same { OnOk result (HasSameChip visit.old visit.new) }
    ensures next { IfOk result (λ next. MatchOption next (visit.new.rest.now ≡ [])
        (IsUnplaced (chips_of catalog.now) search.now.ranks.items visit.old.entry.now)) }
{
    'parts: while let Some((part, others)) = visit.rest.split_first() {
        let inner = number_of(catalog, part.chip.as_bytes());
        match search.ranks[inner] {
            None => return Ok(Some(inner)),
            Some(place) => visit.places.push(place)?,
        }
        visit.rest = others;
    }
    Ok(None)
}

/// The chip of a visit stands, after all that stood.
fn settle(search: &mut Search, visit: Visit<'_>) -> Result<(), AllocError>
    requires { visit.number < length search.old.ranks.items }
    ensures ranks { OnOk result (search.new.ranks.items ≡ slice_set search.old.ranks.items
        visit.entry.number (Some (length search.old.chips.items))) }
    ensures chips { OnOk result
        (IsSettled visit.entry search.old.chips.items search.new.chips.items) }
{
    let rank = search.chips.len();
    search.chips.push(Nested {
        number: visit.number,
        parts: visit.places,
    })?;
    set_rank(&mut search.ranks, visit.number, rank);
    Ok(())
}

fn put<'a>(stack: &mut Vec<Visit<'a>>, visit: Visit<'a>) -> Result<(), AllocError>
    ensures { OnOk result (stack.new.items ≡ stack.old.items ++ visit.entry ∷ []) }
{
    stack.push(visit)?;
    Ok(())
}

/// Goes on with the chip on top of the stack: it stands, or one of its parts has a chip that does not stand, and that comes on top.
fn step<'a>(
    alloc: Global,
    catalog: &Catalog<'a>,
    search: &mut Search,
    stack: &mut Vec<Visit<'a>>,
    visit: Visit<'a>,
) -> Result<(), AllocError>
    requires catalog { IsCatalog catalog.now }
    requires stack { (top : ℕ)
        × IsStack (chips_of catalog.now) top search.old (stack.old.items ++ visit ∷ []) }
    ensures stack { OnOk result ((top : ℕ)
        → IsStack (chips_of catalog.now) top search.old (stack.old.items ++ visit.entry ∷ [])
        → IsStack (chips_of catalog.now) top search.new stack.new.items) }
    ensures less { OnOk result (work_left search.new (length stack.new.items)
        < work_left search.old (length stack.old.items + 1)) }
{
    let mut visit = visit;
    match go_on(catalog, search, &mut visit)? {
        None => settle(search, visit),
        Some(k) => {
            put(stack, visit)?;
            put(stack, begin(alloc, catalog, k))
        }
    }
}

fn no_ranks(alloc: Global, n: usize) -> Result<Vec<Option<usize>>, AllocError>
    ensures { IfOk result (λ v. v.items ≡ replicate n None) }
{
    vec![in alloc; None; n]
}

/// The chips of the tree of a chip without faults.
pub(crate) fn nest_of<'a>(
    alloc: Global,
    catalog: &Catalog<'a>,
    top: &'a [u8],
) -> Result<Nest, AllocError>
    requires catalog { IsCatalog catalog.now }
    requires there { IsSome (find_entry catalog.now.entries.now top.now) }
    requires fine { TopIsFaultless (chips_of catalog.now) top.now }
    requires ends { EndsHavePins (chips_of catalog.now) }
    ensures { IfOk result (λ nest. IsNestOf (chips_of catalog.now) top.now nest) }
{
    let mut search = Search {
        ranks: no_ranks(alloc, catalog.entries.len())?,
        chips: Vec::new(alloc),
    };
    let k = number_of(catalog, top);
    let mut stack = Vec::new(alloc);
    put(&mut stack, begin(alloc, catalog, k))?;
    'visits: while let Some(visit) = stack.pop() {
        step(alloc, catalog, &mut search, &mut stack, visit)?;
    }
    match search.ranks[k] {
        None => unreachable!(),
        Some(top) => Ok(Nest {
            chips: search.chips,
            top,
        }),
    }
}
