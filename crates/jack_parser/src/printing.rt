//! The printed form of classes.

ghost use Rattle.std.specs.Prelude.{◌≡◌, ◌++◌, ◌∷◌, []};
ghost use Rattle.grammar.specs.Printed.{Writes, set_off};
ghost use Rattle.grammar.specs.Rules.{name, NoMore, option, repeat, tree_of_list};
ghost use Rattle.outer_world.specs.Held.{HaveSameSink, pending, sink_of};
ghost use Rattle.outer_world.specs.Written.{Puts};
ghost use Rattle.jack_tree.specs.Tokens.{keyword_text};
ghost use Rattle.jack_parser.specs.declared.counts.Counted.{Counted};
ghost use Rattle.jack_parser.specs.Grammar.{arguments, class_rule, class_variables, declaration, expression, group, invocation_rule, locals_rule, names_rule, next_name, next_parameter, operation, parameter, parameters, statement, subroutine, subscript, term};
ghost use Rattle.jack_parser.specs.Trees.{args_tree, call_said, constant_leaf_said, exp_tree, group_tree, invoked_tree, operations_tree, operator_byte, sign_byte, term_tree};
ghost use Rattle.jack_parser.specs.StatementTrees.{index_tree, statement_tree, statements_tree, value_tree};
ghost use Rattle.jack_parser.specs.ClassTrees.{class_tree, declared_tree, form_said, locals_tree, names_tree, next_name_tree, next_parameter_tree, parameter_tree, parameters_tree, result_said, subroutine_tree, type_leaf_said, variables_tree};
ghost use Rattle.jack_parser.specs.Printed.{class_text, said_text};
ghost use Rattle.jack_parser.specs.Inner.Written.{Shows};

use grammar::{put_rest, put_symbol, put_token};
use itoa::Buffer;
use jack_tree::{
    Call, Class, ClassVariables, Constant, Expression, Form, Keyword, Locals, Name, Names,
    Operation, Operator, Parameter, Scope, Sign, Statement, Subroutine, Term, Type,
};
use outer_world::{Pieces, Put, Sink};

// A string in its quotes.
fn put_string<S: Sink>(text: &[u8], status: Put, out: &mut Pieces<'_, S>) -> Put
    ensures { Writes (set_off (34 ∷ (text.now ++ 34 ∷ []))) status out.old result out.new }
{
    if status == Put::Failed {
        return Put::Failed;
    }
    out.put_all(&[b"\"", text, b"\" "])
}

fn put_keyword<S: Sink>(keyword: Keyword, status: Put, out: &mut Pieces<'_, S>) -> Put
    ensures { Writes (set_off (keyword_text keyword)) status out.old result out.new }
{
    put_token(keyword.text().as_bytes(), status, out)
}

fn put_name<S: Sink>(name: &Name, status: Put, out: &mut Pieces<'_, S>) -> Put
    ensures { Writes (set_off name.now.text) status out.old result out.new }
{
    put_token(name.text.as_bytes(), status, out)
}

fn put_constant<S: Sink>(constant: &Constant, status: Put, out: &mut Pieces<'_, S>) -> Put
    ensures { Writes (set_off (said_text (constant_leaf_said constant.now))) status out.old
        result out.new }
{
    match constant {
        Constant::Integer(number) => {
            let mut digits = Buffer::new();
            put_token(digits.format(*number).as_bytes(), status, out)
        }
        Constant::Text(text) => put_string(text.get().text.as_bytes(), status, out),
        Constant::True => put_keyword(Keyword::True, status, out),
        Constant::False => put_keyword(Keyword::False, status, out),
        Constant::Null => put_keyword(Keyword::Null, status, out),
        Constant::This(_) => put_keyword(Keyword::This, status, out),
    }
}

fn operator_byte(operator: Operator) -> u8
    ensures { result ≡ operator_byte operator }
{
    match operator {
        Operator::Plus => b'+',
        Operator::Minus => b'-',
        Operator::Times => b'*',
        Operator::Divide => b'/',
        Operator::And => b'&',
        Operator::Or => b'|',
        Operator::Less => b'<',
        Operator::Greater => b'>',
        Operator::Equal => b'=',
    }
}

fn sign_byte(sign: Sign) -> u8
    ensures { result ≡ sign_byte sign }
{
    match sign {
        Sign::Minus => b'-',
        Sign::Not => b'~',
        Sign::ShiftLeft => b'^',
        Sign::ShiftRight => b'#',
    }
}

#[cycle(printing)]
fn put_expression<S: Sink>(value: &Expression, status: Put, out: &mut Pieces<'_, S>) -> Put
    ensures { Shows (exp_tree value.now) (name expression) status out.old result out.new }
{
    let begun = put_term(&value.first, status, out);
    put_operations(&value.rest, begun, out)
}

// Operators with the terms that follow them.
#[cycle(printing)]
fn put_operations<S: Sink>(operations: &[Operation], status: Put, out: &mut Pieces<'_, S>) -> Put
    ensures { Shows (operations_tree operations.now)
        (repeat operation) status out.old result out.new }
{
    let mut status = status;
    for one in operations {
        let marked = put_symbol(operator_byte(one.operator), status, out);
        status = put_term(&one.term, marked, out);
    }
    status
}

#[cycle(printing)]
fn put_term<S: Sink>(one: &Term, status: Put, out: &mut Pieces<'_, S>) -> Put
    ensures { Shows (term_tree one.now) (name term) status out.old result out.new }
{
    match one {
        Term::Constant(constant) => put_constant(constant, status, out),
        Term::Variable(name) => put_name(name, status, out),
        Term::Element(array, index) => {
            let named = put_name(array.get(), status, out);
            let opened = put_symbol(b'[', named, out);
            let indexed = put_expression(index, opened, out);
            put_symbol(b']', indexed, out)
        }
        Term::Call(call) => {
            let begun = put_front(call, status, out);
            put_invoked(call, begun, out)
        }
        Term::Group(inside) => {
            let before = put_symbol(b'(', status, out);
            let grouped = put_expression(inside, before, out);
            put_symbol(b')', grouped, out)
        }
        Term::Unary(sign, signed) => {
            let marked = put_symbol(sign_byte(*sign), status, out);
            put_term(signed, marked, out)
        }
    }
}

// The name at the front of a call.
fn put_front<S: Sink>(call: &Call, status: Put, out: &mut Pieces<'_, S>) -> Put
    ensures { Writes (set_off (said_text (call_said call.now))) status out.old result out.new }
{
    match &call.object {
        None => put_name(&call.name, status, out),
        Some(object) => put_name(object, status, out),
    }
}

// What follows that name.
#[cycle(printing)]
fn put_invoked<S: Sink>(call: &Call, status: Put, out: &mut Pieces<'_, S>) -> Put
    ensures { Shows (invoked_tree call.now) invocation_rule status out.old result out.new }
{
    match &call.object {
        None => {
            let opened = put_symbol(b'(', status, out);
            let given = put_arguments(&call.arguments, opened, out);
            put_symbol(b')', given, out)
        }
        Some(_) => {
            let through = put_symbol(b'.', status, out);
            let named = put_name(&call.name, through, out);
            let begun = put_symbol(b'(', named, out);
            let passed = put_arguments(&call.arguments, begun, out);
            put_symbol(b')', passed, out)
        }
    }
}

#[cycle(printing)]
fn put_arguments<S: Sink>(values: &[Expression], status: Put, out: &mut Pieces<'_, S>) -> Put
    ensures { Shows (args_tree values.now) arguments status out.old result out.new }
{
    let Some((first, rest)) = values.split_first() else {
        return status;
    };
    let mut status = put_expression(first, status, out);
    for value in rest {
        let separated = put_symbol(b',', status, out);
        status = put_expression(value, separated, out);
    }
    status
}

// '(' expression ')'
fn put_group<S: Sink>(value: &Expression, status: Put, out: &mut Pieces<'_, S>) -> Put
    ensures { Shows (group_tree value.now) group status out.old result out.new }
{
    let opened = put_symbol(b'(', status, out);
    let inside = put_expression(value, opened, out);
    put_symbol(b')', inside, out)
}

// '[' expression ']'
fn put_subscript<S: Sink>(value: &Expression, status: Put, out: &mut Pieces<'_, S>) -> Put
    ensures { Shows (group_tree value.now) subscript status out.old result out.new }
{
    let opened = put_symbol(b'[', status, out);
    let inside = put_expression(value, opened, out);
    put_symbol(b']', inside, out)
}

// The index of an element, where one is written.
fn put_index<S: Sink>(index: &Option<Box<Expression>>, status: Put, out: &mut Pieces<'_, S>) -> Put
    ensures { Shows (index_tree index.now) (option subscript) status out.old result out.new }
{
    match index {
        None => status,
        Some(value) => put_subscript(value, status, out),
    }
}

// The value that is returned, where one is written.
fn put_value<S: Sink>(value: &Option<Expression>, status: Put, out: &mut Pieces<'_, S>) -> Put
    ensures { Shows (value_tree value.now)
        (option (name expression)) status out.old result out.new }
{
    match value {
        None => status,
        Some(value) => put_expression(value, status, out),
    }
}

#[cycle(printing_statements)]
fn put_statement<S: Sink>(one: &Statement, status: Put, out: &mut Pieces<'_, S>) -> Put
    ensures { Shows (statement_tree one.now) (name statement) status out.old result out.new }
{
    match one {
        Statement::Let(_, name, index, value) => {
            let begun = put_keyword(Keyword::Let, status, out);
            let named = put_name(name, begun, out);
            let indexed = put_index(index, named, out);
            let assigned = put_symbol(b'=', indexed, out);
            let valued = put_expression(value, assigned, out);
            put_symbol(b';', valued, out)
        }
        Statement::If(_, condition, body, other) => {
            let asked = put_keyword(Keyword::If, status, out);
            let tested = put_group(condition.get(), asked, out);
            let opened = put_symbol(b'{', tested, out);
            let met = put_statements(body, opened, out);
            let closed = put_symbol(b'}', met, out);
            match other {
                None => closed,
                Some(other) => {
                    let turned = put_keyword(Keyword::Else, closed, out);
                    let entered = put_symbol(b'{', turned, out);
                    let unmet = put_statements(other, entered, out);
                    put_symbol(b'}', unmet, out)
                }
            }
        }
        Statement::While(_, condition, body) => {
            let repeating = put_keyword(Keyword::While, status, out);
            let guarded = put_group(condition, repeating, out);
            let entering = put_symbol(b'{', guarded, out);
            let looped = put_statements(body, entering, out);
            put_symbol(b'}', looped, out)
        }
        Statement::Do(_, call) => {
            let doing = put_keyword(Keyword::Do, status, out);
            let fronted = put_front(call, doing, out);
            let called = put_invoked(call, fronted, out);
            put_symbol(b';', called, out)
        }
        Statement::Return(_, value) => {
            let returning = put_keyword(Keyword::Return, status, out);
            let returned = put_value(value, returning, out);
            put_symbol(b';', returned, out)
        }
    }
}

#[cycle(printing_statements)]
fn put_statements<S: Sink>(statements: &[Statement], status: Put, out: &mut Pieces<'_, S>) -> Put
    ensures { Shows (statements_tree statements.now)
        (repeat (name statement)) status out.old result out.new }
{
    let mut status = status;
    for one in statements {
        status = put_statement(one, status, out);
    }
    status
}

fn put_type<S: Sink>(kind: &Type, status: Put, out: &mut Pieces<'_, S>) -> Put
    ensures { Writes (set_off (said_text (type_leaf_said kind.now))) status out.old result out.new }
{
    match kind {
        Type::Int => put_keyword(Keyword::Int, status, out),
        Type::Char => put_keyword(Keyword::Char, status, out),
        Type::Boolean => put_keyword(Keyword::Boolean, status, out),
        Type::Class(name) => put_name(name, status, out),
    }
}

fn put_result<S: Sink>(of: &Option<Type>, status: Put, out: &mut Pieces<'_, S>) -> Put
    ensures { Writes (set_off (said_text (result_said of.now))) status out.old result out.new }
{
    match of {
        None => put_keyword(Keyword::Void, status, out),
        Some(kind) => put_type(kind, status, out),
    }
}

fn put_form<S: Sink>(form: Form, status: Put, out: &mut Pieces<'_, S>) -> Put
    ensures { Writes (set_off (said_text (form_said form))) status out.old result out.new }
{
    match form {
        Form::Constructor => put_keyword(Keyword::Constructor, status, out),
        Form::Function => put_keyword(Keyword::Function, status, out),
        Form::Method => put_keyword(Keyword::Method, status, out),
    }
}

// , name
fn put_next_name<S: Sink>(name: &Name, status: Put, out: &mut Pieces<'_, S>) -> Put
    ensures { (x : Counted)
        → Shows (next_name_tree name.now) (next_name x) status out.old result out.new }
{
    let separated = put_symbol(b',', status, out);
    put_name(name, separated, out)
}

fn put_more_names<S: Sink>(names: &[Name], status: Put, out: &mut Pieces<'_, S>) -> Put
    ensures { (x : Counted) → Shows (tree_of_list next_name_tree names.now NoMore)
        (repeat (next_name x)) status out.old result out.new }
{
    let mut status = status;
    for one in names {
        status = put_next_name(one, status, out);
    }
    status
}

fn put_names<S: Sink>(names: &Names, status: Put, out: &mut Pieces<'_, S>) -> Put
    ensures { (x : Counted)
        → Shows (names_tree names.now) (names_rule x) status out.old result out.new }
{
    let begun = put_name(&names.first, status, out);
    put_more_names(&names.more, begun, out)
}

// A type and names after a keyword.
fn put_declaration<S: Sink>(
    word: Keyword,
    kind: &Type,
    names: &Names,
    status: Put,
    out: &mut Pieces<'_, S>,
) -> Put
    ensures { (x : Counted) → Shows (declared_tree kind.now names.now)
        (declaration word x) status out.old result out.new }
{
    let begun = put_keyword(word, status, out);
    let typed = put_type(kind, begun, out);
    let named = put_names(names, typed, out);
    put_symbol(b';', named, out)
}

fn put_variables<S: Sink>(variables: &ClassVariables, status: Put, out: &mut Pieces<'_, S>) -> Put
    ensures { Shows (variables_tree variables.now) class_variables status out.old result out.new }
{
    let (kind, names) = (&variables.kind, &variables.names);
    match variables.scope {
        Scope::Static => put_declaration(Keyword::Static, kind, names, status, out),
        Scope::Field => put_declaration(Keyword::Field, kind, names, status, out),
    }
}

fn put_all_variables<S: Sink>(all: &[ClassVariables], status: Put, out: &mut Pieces<'_, S>) -> Put
    ensures { Shows (tree_of_list variables_tree all.now NoMore)
        (repeat class_variables) status out.old result out.new }
{
    let mut status = status;
    for one in all {
        status = put_variables(one, status, out);
    }
    status
}

fn put_locals<S: Sink>(locals: &Locals, status: Put, out: &mut Pieces<'_, S>) -> Put
    ensures { Shows (locals_tree locals.now) locals_rule status out.old result out.new }
{
    put_declaration(Keyword::Var, &locals.kind, &locals.names, status, out)
}

fn put_all_locals<S: Sink>(all: &[Locals], status: Put, out: &mut Pieces<'_, S>) -> Put
    ensures { Shows (tree_of_list locals_tree all.now NoMore)
        (repeat locals_rule) status out.old result out.new }
{
    let mut status = status;
    for one in all {
        status = put_locals(one, status, out);
    }
    status
}

fn put_parameter<S: Sink>(one: &Parameter, status: Put, out: &mut Pieces<'_, S>) -> Put
    ensures { Shows (parameter_tree one.now) parameter status out.old result out.new }
{
    let typed = put_type(&one.kind, status, out);
    put_name(&one.name, typed, out)
}

// , type name
fn put_next_parameter<S: Sink>(one: &Parameter, status: Put, out: &mut Pieces<'_, S>) -> Put
    ensures { Shows (next_parameter_tree one.now) next_parameter status out.old result out.new }
{
    let separated = put_symbol(b',', status, out);
    put_parameter(one, separated, out)
}

fn put_more_parameters<S: Sink>(all: &[Parameter], status: Put, out: &mut Pieces<'_, S>) -> Put
    ensures { Shows (tree_of_list next_parameter_tree all.now NoMore)
        (repeat next_parameter) status out.old result out.new }
{
    let mut status = status;
    for one in all {
        status = put_next_parameter(one, status, out);
    }
    status
}

fn put_parameters<S: Sink>(all: &[Parameter], status: Put, out: &mut Pieces<'_, S>) -> Put
    ensures { Shows (parameters_tree all.now) parameters status out.old result out.new }
{
    let Some((first, more)) = all.split_first() else {
        return status;
    };
    let begun = put_parameter(first, status, out);
    put_more_parameters(more, begun, out)
}

fn put_subroutine<S: Sink>(one: &Subroutine, status: Put, out: &mut Pieces<'_, S>) -> Put
    ensures { Shows (subroutine_tree one.now) subroutine status out.old result out.new }
{
    let formed = put_form(one.form, status, out);
    let typed = put_result(&one.result, formed, out);
    let named = put_name(&one.name, typed, out);
    let opened = put_symbol(b'(', named, out);
    let taken = put_parameters(&one.parameters, opened, out);
    let closed = put_symbol(b')', taken, out);
    let begun = put_symbol(b'{', closed, out);
    let declared = put_all_locals(&one.locals, begun, out);
    let stated = put_statements(&one.statements, declared, out);
    put_symbol(b'}', stated, out)
}

fn put_subroutines<S: Sink>(all: &[Subroutine], status: Put, out: &mut Pieces<'_, S>) -> Put
    ensures { Shows (tree_of_list subroutine_tree all.now NoMore)
        (repeat subroutine) status out.old result out.new }
{
    let mut status = status;
    for one in all {
        status = put_subroutine(one, status, out);
    }
    status
}

fn put_class<S: Sink>(class: &Class, status: Put, out: &mut Pieces<'_, S>) -> Put
    ensures { Shows (class_tree class.now) class_rule status out.old result out.new }
{
    let begun = put_keyword(Keyword::Class, status, out);
    let named = put_name(&class.name, begun, out);
    let opened = put_symbol(b'{', named, out);
    let declared = put_all_variables(&class.variables, opened, out);
    let defined = put_subroutines(&class.subroutines, declared, out);
    put_symbol(b'}', defined, out)
}

// The same with an empty buffer before, and after.
fn put_all<S: Sink>(class: &Class, out: &mut Pieces<'_, S>) -> Put
    requires { pending out.old ≡ [] }
    ensures same_sink { HaveSameSink out.old out.new }
    ensures put { Puts (S.state (sink_of out.old)) (S.state (sink_of out.new))
        (class_text class.now) result }
{
    let status = put_class(class, Put::Done, out);
    put_rest(status, out)
}

/// Prints a class: its tokens with one space between them, and a line feed in its place after `{`, `}` and `;`. It takes no memory.
pub fn print<S: Sink>(class: &Class, out: &mut S) -> Put
    ensures put { Puts (S.state out.old) (S.state out.new) (class_text class.now) result }
{
    let mut pieces = Pieces::new(out);
    put_all(class, &mut pieces)
}
