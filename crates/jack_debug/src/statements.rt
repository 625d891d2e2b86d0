//! The places of the statements of a subroutine.
ghost use Rattle.std.specs.Prelude.{◌≡◌, ◌++◌, IfOk, OnOk};
ghost use Rattle.jack_tree.specs.Seen.{the_statement, the_statements, the_subroutine};
ghost use Rattle.jack_debug.specs.Statements.{block_places, statement_places, subroutine_places};

use jack_tree::{Statement, Subroutine};
use outer_world::List;
use scan_text::Place;
use std::alloc::{AllocError, Global};

// Adds the place of a statement, and then those of the statements in it.
#[cycle(statements)]
fn add_statement(s: &Statement, places: &mut List<Place>) -> Result<(), AllocError>
    ensures { OnOk result (places.new ≡ places.old ++ statement_places (the_statement s.now)) }
{
    match s {
        Statement::If(at, _, holds, fails) => {
            places.push(*at)?;
            add_statements(holds, places)?;
            match fails {
                Some(fails) => add_statements(fails, places),
                None => Ok(()),
            }
        }
        Statement::While(at, _, body) => {
            places.push(*at)?;
            add_statements(body, places)
        }
        Statement::Let(at, _, _, _) | Statement::Do(at, _) | Statement::Return(at, _) => {
            places.push(*at)?;
            Ok(())
        }
    }
}

// Adds the places of statements, and of those in them.
#[cycle(statements)]
fn add_statements(ss: &[Statement], places: &mut List<Place>) -> Result<(), AllocError>
    ensures { OnOk result (places.new ≡ places.old ++ block_places (the_statements ss.now)) }
{
    for s in ss {
        add_statement(s, places)?;
    }
    Ok(())
}

/// The places of a subroutine's statements by their numbers. There is that of number 0, by which a constructor takes the
/// memory of its object, and those of the text. A body without a `return` has that of the one that it gets.
pub fn subroutine_places(alloc: Global, sub: &Subroutine) -> Result<List<Place>, AllocError>
    ensures { IfOk result (λ places. places ≡ subroutine_places (the_subroutine sub.now)) }
{
    let mut places = List::new(alloc);
    places.push(sub.name.place)?;
    add_statements(&sub.statements, &mut places)?;
    places.push(sub.close)?;
    Ok(places)
}
