//! The printed form of chips.

ghost use Rattle.std.specs.Prelude.{◌≡◌, []};
ghost use Rattle.grammar.specs.Printed.{Writes, set_off};
ghost use Rattle.grammar.specs.Rules.{NoMore, option, repeat, tree_of_list};
ghost use Rattle.outer_world.specs.Held.{HaveSameSink, pending, sink_of};
ghost use Rattle.outer_world.specs.Written.{Puts};
ghost use Rattle.hdl_parser.specs.Tokens.{keyword_text};
ghost use Rattle.hdl_parser.specs.Grammar.{body, builtin, chip, connection, indices, last, listing, name, next_of, part, parts, pin, pins, row, source, subscript, width_rule, selection};
ghost use Rattle.hdl_parser.specs.Trees.{body_tree, builtin_tree, chip_tree, connection_tree, connections_tree, indices_tree, name_leaf, names_tree, next_tree, number_said, part_tree, parts_tree, pin_tree, pins_tree, source_tree, subscript_tree, truth, width_tree, selection_tree};
ghost use Rattle.hdl_parser.specs.Printed.{chip_text, said_text};
ghost use Rattle.hdl_parser.specs.Inner.Written.{Shows};

use crate::token::Keyword;
use grammar::{put_rest, put_symbol, put_token};
use hdl_tree::{Body, Chip, Connection, Name, Part, Pin, Selection, Source, Subscript};
use itoa::Buffer;
use outer_world::{Pieces, Put, Sink};

fn put_keyword<S: Sink>(keyword: Keyword, status: Put, out: &mut Pieces<'_, S>) -> Put
    ensures { Writes (set_off (keyword_text keyword)) status out.old result out.new }
{
    put_token(keyword.text().as_bytes(), status, out)
}

fn put_name<S: Sink>(name: &Name, status: Put, out: &mut Pieces<'_, S>) -> Put
    ensures { Writes (set_off name.now) status out.old result out.new }
{
    put_token(name.as_bytes(), status, out)
}

fn put_number<S: Sink>(number: u8, status: Put, out: &mut Pieces<'_, S>) -> Put
    ensures { Writes (set_off (said_text (number_said number))) status out.old result out.new }
{
    let mut digits = Buffer::new();
    put_token(digits.format(number).as_bytes(), status, out)
}

// The width of a pin, where one is written.
fn put_width<S: Sink>(width: &Option<u8>, status: Put, out: &mut Pieces<'_, S>) -> Put
    ensures { Shows (width_tree width.now) (option width_rule) status out.old result out.new }
{
    match width {
        None => status,
        Some(number) => {
            let opened = put_symbol(b'[', status, out);
            let counted = put_number(*number, opened, out);
            put_symbol(b']', counted, out)
        }
    }
}

fn put_pin<S: Sink>(one: &Pin, status: Put, out: &mut Pieces<'_, S>) -> Put
    ensures { Shows (pin_tree one.now) pin status out.old result out.new }
{
    let named = put_name(&one.name, status, out);
    put_width(&one.width, named, out)
}

fn put_next_pin<S: Sink>(one: &Pin, status: Put, out: &mut Pieces<'_, S>) -> Put
    ensures { Shows (next_tree pin_tree one.now) (next_of pin) status out.old result out.new }
{
    let separated = put_symbol(b',', status, out);
    put_pin(one, separated, out)
}

fn put_more_pins<S: Sink>(all: &[Pin], status: Put, out: &mut Pieces<'_, S>) -> Put
    ensures { Shows (tree_of_list (next_tree pin_tree) all.now NoMore)
        (repeat (next_of pin)) status out.old result out.new }
{
    let mut status = status;
    for one in all {
        status = put_next_pin(one, status, out);
    }
    status
}

// The pins after a keyword, where there are some.
fn put_pins<S: Sink>(word: Keyword, all: &[Pin], status: Put, out: &mut Pieces<'_, S>) -> Put
    ensures { Shows (pins_tree all.now) (pins word) status out.old result out.new }
{
    let Some((first, more)) = all.split_first() else {
        return status;
    };
    let begun = put_keyword(word, status, out);
    let led = put_pin(first, begun, out);
    let followed = put_more_pins(more, led, out);
    put_symbol(b';', followed, out)
}

fn put_next_name<S: Sink>(one: &Name, status: Put, out: &mut Pieces<'_, S>) -> Put
    ensures { Shows (next_tree name_leaf one.now) (next_of name) status out.old result out.new }
{
    let separated = put_symbol(b',', status, out);
    put_name(one, separated, out)
}

fn put_more_names<S: Sink>(all: &[Name], status: Put, out: &mut Pieces<'_, S>) -> Put
    ensures { Shows (tree_of_list (next_tree name_leaf) all.now NoMore)
        (repeat (next_of name)) status out.old result out.new }
{
    let mut status = status;
    for one in all {
        status = put_next_name(one, status, out);
    }
    status
}

// The names after `CLOCKED`, where there are some.
fn put_clocked<S: Sink>(all: &[Name], status: Put, out: &mut Pieces<'_, S>) -> Put
    ensures { Shows (names_tree all.now)
        (option (listing Keyword.Clocked name)) status out.old result out.new }
{
    let Some((first, more)) = all.split_first() else {
        return status;
    };
    let begun = put_keyword(Keyword::Clocked, status, out);
    let led = put_name(first, begun, out);
    let followed = put_more_names(more, led, out);
    put_symbol(b';', followed, out)
}

fn put_indices<S: Sink>(bits: Subscript, status: Put, out: &mut Pieces<'_, S>) -> Put
    ensures { Shows (indices_tree bits) indices status out.old result out.new }
{
    match bits {
        Subscript::Bit(index) => put_number(index, status, out),
        Subscript::Bits(first, last) => {
            let begun = put_number(first, status, out);
            let dotted = put_token(b"..", begun, out);
            put_number(last, dotted, out)
        }
    }
}

// The bits in brackets, where some are written.
fn put_subscript<S: Sink>(bits: &Option<Subscript>, status: Put, out: &mut Pieces<'_, S>) -> Put
    ensures { Shows (subscript_tree bits.now) (option subscript) status out.old result out.new }
{
    match bits {
        None => status,
        Some(bits) => {
            let opened = put_symbol(b'[', status, out);
            let counted = put_indices(*bits, opened, out);
            put_symbol(b']', counted, out)
        }
    }
}

fn put_selection<S: Sink>(one: &Selection, status: Put, out: &mut Pieces<'_, S>) -> Put
    ensures { Shows (selection_tree one.now) selection status out.old result out.new }
{
    let named = put_name(&one.name, status, out);
    put_subscript(&one.subscript, named, out)
}

fn truth(value: bool) -> Keyword
    ensures { result ≡ truth value }
{
    if value { Keyword::True } else { Keyword::False }
}

fn put_source<S: Sink>(one: &Source, status: Put, out: &mut Pieces<'_, S>) -> Put
    ensures { Shows (source_tree one.now) source status out.old result out.new }
{
    match one {
        Source::Net(selection) => put_selection(selection, status, out),
        Source::Constant(value) => put_keyword(truth(*value), status, out),
    }
}

fn put_connection<S: Sink>(one: &Connection, status: Put, out: &mut Pieces<'_, S>) -> Put
    ensures { Shows (connection_tree one.now) connection status out.old result out.new }
{
    let named = put_selection(&one.pin, status, out);
    let joined = put_symbol(b'=', named, out);
    put_source(&one.source, joined, out)
}

fn put_next_connection<S: Sink>(one: &Connection, status: Put, out: &mut Pieces<'_, S>) -> Put
    ensures { Shows (next_tree connection_tree one.now)
        (next_of connection) status out.old result out.new }
{
    let separated = put_symbol(b',', status, out);
    put_connection(one, separated, out)
}

fn put_more_connections<S: Sink>(all: &[Connection], status: Put, out: &mut Pieces<'_, S>) -> Put
    ensures { Shows (tree_of_list (next_tree connection_tree) all.now NoMore)
        (repeat (next_of connection)) status out.old result out.new }
{
    let mut status = status;
    for one in all {
        status = put_next_connection(one, status, out);
    }
    status
}

fn put_connections<S: Sink>(all: &[Connection], status: Put, out: &mut Pieces<'_, S>) -> Put
    ensures { Shows (connections_tree all.now) (row connection) status out.old result out.new }
{
    let Some((first, more)) = all.split_first() else {
        return status;
    };
    let begun = put_connection(first, status, out);
    put_more_connections(more, begun, out)
}

fn put_part<S: Sink>(one: &Part, status: Put, out: &mut Pieces<'_, S>) -> Put
    ensures { Shows (part_tree one.now) part status out.old result out.new }
{
    let named = put_name(&one.chip, status, out);
    let opened = put_symbol(b'(', named, out);
    let connected = put_connections(one.connections.as_slice(), opened, out);
    let closed = put_symbol(b')', connected, out);
    put_symbol(b';', closed, out)
}

fn put_all_parts<S: Sink>(all: &[Part], status: Put, out: &mut Pieces<'_, S>) -> Put
    ensures { Shows (tree_of_list part_tree all.now NoMore)
        (repeat part) status out.old result out.new }
{
    let mut status = status;
    for one in all {
        status = put_part(one, status, out);
    }
    status
}

// `PARTS`, a colon and the parts.
fn put_parts<S: Sink>(all: &[Part], status: Put, out: &mut Pieces<'_, S>) -> Put
    ensures { Shows (parts_tree all.now) parts status out.old result out.new }
{
    let begun = put_keyword(Keyword::Parts, status, out);
    let opened = put_symbol(b':', begun, out);
    put_all_parts(all, opened, out)
}

// `BUILTIN`, a name and the names that are clocked.
fn put_builtin<S: Sink>(chip: &Name, clocked: &[Name], status: Put, out: &mut Pieces<'_, S>) -> Put
    ensures { Shows (builtin_tree chip.now clocked.now) builtin status out.old result out.new }
{
    let begun = put_keyword(Keyword::Builtin, status, out);
    let named = put_name(chip, begun, out);
    let closed = put_symbol(b';', named, out);
    put_clocked(clocked, closed, out)
}

fn put_body<S: Sink>(one: &Body, status: Put, out: &mut Pieces<'_, S>) -> Put
    ensures { Shows (body_tree one.now) body status out.old result out.new }
{
    match one {
        Body::Parts(all) => put_parts(all.as_slice(), status, out),
        Body::Builtin(chip, clocked) => put_builtin(chip, clocked.as_slice(), status, out),
    }
}

fn put_chip<S: Sink>(one: &Chip, status: Put, out: &mut Pieces<'_, S>) -> Put
    ensures { Shows (chip_tree one.now) chip status out.old result out.new }
{
    let begun = put_keyword(Keyword::Chip, status, out);
    let named = put_name(&one.name, begun, out);
    let opened = put_symbol(b'{', named, out);
    let entered = put_pins(Keyword::In, one.inputs.as_slice(), opened, out);
    let left = put_pins(Keyword::Out, one.outputs.as_slice(), entered, out);
    let made = put_body(&one.body, left, out);
    put_symbol(b'}', made, out)
}

// Puts a chip where nothing is pending, and all that is pending then.
fn put_all<S: Sink>(chip: &Chip, out: &mut Pieces<'_, S>) -> Put
    requires { pending out.old ≡ [] }
    ensures same_sink { HaveSameSink out.old out.new }
    ensures put { Puts (S.state (sink_of out.old)) (S.state (sink_of out.new))
        (chip_text chip.now) result }
{
    let status = put_chip(chip, Put::Done, out);
    put_rest(status, out)
}

/// Prints a chip: its tokens with one space between them, and a line feed in its place after `{`, `}` and `;`. It takes no memory.
pub fn print<S: Sink>(chip: &Chip, out: &mut S) -> Put
    ensures put { Puts (S.state out.old) (S.state out.new) (chip_text chip.now) result }
{
    let mut pieces = Pieces::new(out);
    put_all(chip, &mut pieces)
}
