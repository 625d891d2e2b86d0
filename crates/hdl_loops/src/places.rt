//! The places of chips by their names, and the pins of the chip in each.

ghost use Rattle.std.specs.Prelude.{◌≡◌, ◌<◌, None, Some, List, IfOk, MatchOption, length, slice_get};
ghost use Rattle.hdl_tree.specs.declared.library.Entry.{Entry};
ghost use Rattle.hdl_tree.specs.Chips.{find_entry};
ghost use Rattle.name_table.specs.Tables.{Finds};
ghost use Rattle.hdl_check.specs.Faults.{ports_of};
ghost use Rattle.hdl_check.specs.Inner.Progress.{numbered_entries};
ghost use Rattle.hdl_loops.specs.Inner.Knowing.{ArePlaces, place_of};

use hdl_check::{Port, port_tables};
use hdl_tree::Entry;
use name_table::Table;
use std::alloc::{AllocError, Global};

/// The places of chips by their names, and the pins of the chip in each.
pub struct Places<'a> {
    names: Table<'a, usize>,
    pins: Vec<Table<'a, Port>>,
}

// By hand, so that whoever drops one calls this.
impl Drop for Places<'_> {
    fn drop(self) {
        let Places { names: _, pins: _ } = self;
    }
}

/// The place of the chip of each name; of the first, where several have one.
fn named_places<'a>(alloc: Global, entries: &'a [Entry]) -> Result<Table<'a, usize>, AllocError>
    ensures { IfOk result (λ names. Finds names (numbered_entries 0 entries.now)) }
{
    let mut names = Table::new(alloc);
    let mut rest = entries;
    let mut k: usize = 0;
    while let Some((entry, others)) = rest.split_first() {
        names.enter(entry.name.as_bytes(), k)?;
        k += 1;
        rest = others;
    }
    Ok(names)
}

/// The places of these chips, and their pins.
pub(crate) fn places_of<'a>(alloc: Global, entries: &'a [Entry]) -> Result<Places<'a>, AllocError>
    ensures { IfOk result (λ places. ArePlaces places entries.now) }
{
    let names = named_places(alloc, entries)?;
    let pins = port_tables(alloc, entries)?;
    Ok(Places { names, pins })
}

/// The place of the chip of this name.
pub(crate) fn place<'a>(places: &Places<'a>, name: &'a [u8]) -> Option<usize>
    ensures value { (entries : List Entry) → ArePlaces places.now entries
        → result ≡ place_of entries name.now }
    ensures found { (entries : List Entry)
        → ArePlaces places.now entries → MatchOption result (find_entry entries name.now ≡ None)
        (λ k. (k < length entries) × (find_entry entries name.now ≡ slice_get entries k)) }
{
    places.names.find(name)
}

/// The pins of the chip in this place.
pub(crate) fn pins_at<'a, 'b>(places: &'b Places<'a>, k: usize) -> &'b Table<'a, Port>
    requires { k < length places.now.pins.items }
    ensures { (entries : List Entry) (inner : Entry) → ArePlaces places.now entries
        → slice_get entries k ≡ Some inner → Finds result.now (ports_of inner.chip) }
{
    &places.pins[k]
}
