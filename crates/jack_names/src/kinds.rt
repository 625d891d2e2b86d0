//! What can be wrong with a use of a name.

ghost use Rattle.std.specs.Prelude.{◌≡◌};
ghost use Rattle.jack_names.specs.Faults.{kind_number};
ghost use Rattle.jack_names.specs.Inner.Scopes.{is_function, is_method, is_field, kind_if, field_kind, variable_kind, this_kind, through, callee_by, callee, front_by, count_kind, way_kind, own_kind, signature_kind, called_kind, made_kind, is_lesser, new_kind, append_kind};
ghost use Rattle.jack_names.specs.Inner.Scoped.{the_scope};
ghost use Rattle.std.specs.Prelude.{codes};

use crate::fault::NameKind;
use crate::scope::{Callee, Declared, Scope, Signature, Slot, Way};
use jack_tree::{Form, Name};

pub(crate) fn is_function(form: Form) -> bool
    ensures { result ≡ is_function form }
{
    match form {
        Form::Function => true,
        _ => false,
    }
}

fn is_method(form: Form) -> bool
    ensures { result ≡ is_method form }
{
    match form {
        Form::Method => true,
        _ => false,
    }
}

fn is_field(slot: Slot) -> bool
    ensures { result ≡ is_field slot }
{
    match slot {
        Slot::Field(_) => true,
        _ => false,
    }
}

fn kind_if(holds: bool, kind: NameKind) -> Option<NameKind>
    ensures { result ≡ kind_if holds kind }
{
    if holds { Some(kind) } else { None }
}

// A field in a function.
fn field_kind(form: Form, variable: Declared) -> Option<NameKind>
    ensures { result ≡ field_kind form variable }
{
    if is_function(form) {
        kind_if(is_field(variable.slot), NameKind::FieldInFunction)
    } else {
        None
    }
}

/// What is wrong with a variable, in a subroutine of a form.
pub(crate) fn variable_kind(form: Form, variable: Option<Declared>) -> Option<NameKind>
    ensures { result ≡ variable_kind form variable }
{
    match variable {
        None => Some(NameKind::UnknownVariable),
        Some(variable) => field_kind(form, variable),
    }
}

/// What is wrong with `this`, in a subroutine of a form.
pub(crate) fn this_kind(form: Form) -> Option<NameKind>
    ensures { result ≡ this_kind form }
{
    kind_if(is_function(form), NameKind::ThisInFunction)
}

fn through(way: Way, class: Option<u32>) -> Option<Callee>
    ensures { result ≡ through way class }
{
    match class {
        None => None,
        Some(class) => Some(Callee { way, class }),
    }
}

fn callee_by(variable: Option<Declared>, class: Option<u32>) -> Option<Callee>
    ensures { result ≡ callee_by variable class }
{
    match variable {
        None => through(Way::ByClass, class),
        Some(variable) => through(Way::ByObject, variable.class),
    }
}

/// How a call through a class, a variable or neither is made, and where it goes.
pub(crate) fn callee<'a>(scope: &Scope<'a, '_>, object: &'a Option<Name>) -> Option<Callee>
    ensures { result ≡ callee (the_scope scope.now) object.now }
{
    match object {
        None => Some(Callee {
            way: Way::Own,
            class: scope.own,
        }),
        Some(name) => {
            let name = name.text.as_bytes();
            callee_by(scope.variable(name), scope.class(name))
        }
    }
}

/// What is wrong with the name before the dot of a call.
pub(crate) fn front_by(
    form: Form,
    variable: Option<Declared>,
    callee: Option<Callee>,
) -> Option<NameKind>
    ensures { result ≡ front_by form variable callee }
{
    match callee {
        None => Some(NameKind::UnknownClass),
        Some(_) => match variable {
            None => None,
            Some(variable) => field_kind(form, variable),
        },
    }
}

fn count_kind(n: usize, signature: Signature) -> Option<NameKind>
    ensures { result ≡ count_kind n signature }
{
    kind_if(!(signature.parameters == n), NameKind::ArgumentCount)
}

fn way_kind(way: Way, form: Form) -> Option<NameKind>
    ensures { result ≡ way_kind way form }
{
    match way {
        Way::ByClass => kind_if(is_method(form), NameKind::MethodByClass),
        Way::ByObject | Way::Own => kind_if(!is_method(form), NameKind::FunctionByObject),
    }
}

fn own_kind(way: Way, form: Form) -> Option<NameKind>
    ensures { result ≡ own_kind way form }
{
    match way {
        Way::Own => kind_if(is_function(form), NameKind::OwnInFunction),
        _ => None,
    }
}

fn signature_kind(form: Form, way: Way, n: usize, signature: Option<Signature>) -> Option<NameKind>
    ensures { result ≡ signature_kind form way n signature }
{
    match signature {
        None => Some(NameKind::UnknownSubroutine),
        Some(signature) => match count_kind(n, signature) {
            Some(kind) => Some(kind),
            None => match way_kind(way, signature.form) {
                Some(kind) => Some(kind),
                None => own_kind(way, form),
            },
        },
    }
}

/// What is wrong with the name of the subroutine in a call with `n` arguments.
pub(crate) fn called_kind<'a>(
    scope: &Scope<'a, '_>,
    name: &'a [u8],
    n: usize,
    callee: Option<Callee>,
) -> Option<NameKind>
    ensures { result ≡ called_kind (the_scope scope.now) name.now n callee }
{
    match callee {
        None => None,
        Some(callee) => {
            let signature = scope.subroutine(callee.class, name);
            signature_kind(scope.form, callee.way, n, signature)
        }
    }
}

/// What is wrong with a call that the text does not name.
pub(crate) fn made_kind<'a>(
    scope: &Scope<'a, '_>,
    way: Way,
    name: &'a [u8],
    n: usize,
    class: Option<u32>,
) -> Option<NameKind>
    ensures { result ≡ made_kind (the_scope scope.now) way name.now n class }
{
    match class {
        None => Some(NameKind::UnknownClass),
        Some(class) => signature_kind(scope.form, way, n, scope.subroutine(class, name)),
    }
}

fn kind_number(kind: NameKind) -> u8
    ensures { result ≡ kind_number kind }
{
    match kind {
        NameKind::FileName => 1,
        NameKind::ClassTwice => 2,
        NameKind::MemberTwice => 3,
        NameKind::VariableTwice => 4,
        NameKind::UnknownVariable => 5,
        NameKind::UnknownClass => 6,
        NameKind::UnknownSubroutine => 7,
        NameKind::ArgumentCount => 8,
        NameKind::MethodByClass => 9,
        NameKind::FunctionByObject => 10,
        NameKind::ThisInFunction => 11,
        NameKind::FieldInFunction => 12,
        NameKind::OwnInFunction => 13,
        NameKind::NoMain => 14,
    }
}

/// Whether the second of two kinds is the lesser.
pub(crate) fn is_lesser(first: Option<NameKind>, second: Option<NameKind>) -> bool
    ensures { result ≡ is_lesser first second }
{
    match (first, second) {
        (_, None) => false,
        (None, Some(_)) => true,
        (Some(first), Some(second)) => kind_number(second) < kind_number(first),
    }
}

/// What is wrong with the call that makes a string.
pub(crate) fn new_kind(scope: &Scope) -> Option<NameKind>
    ensures { result ≡ new_kind (the_scope scope.now) }
{
    let class = scope.class(b"String".as_slice());
    made_kind(scope, Way::ByClass, b"new".as_slice(), 1, class)
}

/// What is wrong with the calls that fill a string.
pub(crate) fn append_kind(scope: &Scope, text: &[u8]) -> Option<NameKind>
    ensures { result ≡ append_kind (the_scope scope.now) text.now }
{
    if text.is_empty() {
        return None;
    }
    let class = scope.class(b"String".as_slice());
    made_kind(scope, Way::ByObject, b"appendChar".as_slice(), 1, class)
}
