//! The subroutines that trees mean.

ghost use Rattle.std.specs.Prelude.{◌≡◌, ◌+◌, ◌≤◌, ◌^◌, length, map, max, IfOk, slice_get};
ghost use Rattle.jack_core.specs.Texts.{the_statement, the_kind, the_subroutine};
ghost use Rattle.jack_names.specs.Sizes.{sizes};
ghost use Rattle.jack_names.specs.Symbols.{locals_of, objects};
ghost use Rattle.jack_names.specs.Inner.Whole.{first_statements, is_return, returns, body_meant, kind_meant, subroutine_meant, subroutine_name};
ghost use Rattle.jack_names.specs.Inner.Scoped.{the_scope};
ghost use Rattle.jack_names.specs.Resolved.{the_name};

use crate::bodies::statements_meant;
use crate::meant::{call_one, literal, made_number};
use crate::scope::{Owner, Scope};
use jack_core::{Kind, Statement as CoreStatement, Subroutine as CoreSubroutine};
use jack_tree::{Form, Locals, Statement, Subroutine, Text};
use outer_world::Name;
use std::alloc::{AllocError, Global};

// The statement by which a constructor takes the memory of its object.
fn begun(
    alloc: Global,
    scope: &Scope,
    form: Form,
    fields: u16,
) -> Result<Vec<CoreStatement>, AllocError>
    ensures { IfOk result
        (λ r. map the_statement r.items ≡ first_statements (the_scope scope.now) form fields) }
{
    match form {
        Form::Constructor => {
            let number = made_number(scope, b"Memory".as_slice(), b"alloc".as_slice());
            let words = literal(fields.max(1));
            let value = call_one(alloc, number, &words)?;
            let taken = CoreStatement::LetThis { number: 0, value };
            Ok(vec![in alloc; taken]?)
        }
        _ => Ok(Vec::new(alloc)),
    }
}

fn is_return(s: &Statement) -> bool
    ensures { result ≡ is_return s.now }
{
    match s {
        Statement::Return(_, _) => true,
        _ => false,
    }
}

fn returns(ss: &[Statement]) -> bool
    ensures { result ≡ returns ss.now }
{
    match ss.last() {
        None => false,
        Some(s) => is_return(s),
    }
}

fn body_meant<'a>(
    alloc: Global,
    scope: &Scope<'a, '_>,
    fields: u16,
    s: &'a Subroutine,
) -> Result<Vec<CoreStatement>, AllocError>
    requires { 1 + sizes s.now.statements.items ≤ 2 ^ 31 }
    ensures { IfOk result
        (λ r. map the_statement r.items ≡ body_meant (the_scope scope.now) fields s.now) }
{
    let mut body = begun(alloc, scope, s.form, fields)?;
    let (mut texts, number) = statements_meant(alloc, scope, 1, &s.statements)?;
    body.append(&mut texts)?;
    if !returns(&s.statements) {
        let value = literal(0);
        body.push(CoreStatement::Return { number, value })?;
    }
    body.shrink_to_fit();
    Ok(body)
}

fn kind_meant(form: Form) -> Kind
    ensures { the_kind result ≡ kind_meant form }
{
    match form {
        Form::Constructor => Kind::Constructor,
        Form::Function => Kind::Function,
        Form::Method => Kind::Method,
    }
}

/// A method's object is its argument 0.
pub(crate) fn objects(form: Form) -> u32
    ensures { result ≡ objects form }
{
    match form {
        Form::Method => 1,
        _ => 0,
    }
}

fn locals_of(locals: &[Locals]) -> usize
    requires { locals_of locals.now ≤ 16384 }
    ensures { result ≡ locals_of locals.now }
{
    let mut n = 0;
    let mut rest = locals;
    while let Some((line, others)) = rest.split_first() {
        n += line.names.more.len() + 1;
        rest = others;
    }
    n
}

// The whole name of a subroutine, as `Main.main`.
fn subroutine_name(alloc: Global, class: &Text, s: &Subroutine) -> Result<Name, AllocError>
    ensures { IfOk result (λ name. name ≡ subroutine_name class.now s.now) }
{
    let mut name = String::from_str(alloc, class.as_str())?;
    name.push_str(".")?;
    name.push_str(s.name.text.as_str())?;
    Name::new(alloc, name.as_str())
}

/// The subroutine that a tree means in a scope, in a class of this name and this many fields.
pub(crate) fn subroutine_meant<'a>(
    alloc: Global,
    scope: &Scope<'a, '_>,
    owner: Owner<'_>,
    s: &'a Subroutine,
) -> Result<CoreSubroutine, AllocError>
    requires few { 1 + sizes s.now.statements.items ≤ 2 ^ 31 }
    requires parameters { length s.now.parameters.items ≤ 16384 }
    requires locals { locals_of s.now.locals.items ≤ 16384 }
    ensures means { IfOk result
        (λ r. the_subroutine r ≡ subroutine_meant (the_scope scope.now) owner.entry.fields s.now) }
    ensures name { IfOk result (λ r. the_name r ≡ subroutine_name owner.entry.name.now s.now) }
{
    Ok(CoreSubroutine {
        name: subroutine_name(alloc, owner.name, s)?,
        kind: kind_meant(s.form),
        class: scope.own,
        arguments: objects(s.form) + s.parameters.len() as u32,
        locals: locals_of(&s.locals) as u32,
        body: body_meant(alloc, scope, owner.fields, s)?,
    })
}
