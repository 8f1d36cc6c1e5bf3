use ap_list::{Bytes, NoMemory, Seq};
use ap_reader::{Body, Form, forms};
use ap_term::Term;
use ap_value::{Symbol, Value, acl2, copy_symbol};
use std::alloc::{AllocError, Global};

/// The forms of a text, none where it has a fault.
pub fn read(alloc: Global, text: &str) -> Seq<Form> {
    match forms(alloc, text.as_bytes()) {
        Ok(read) => read,
        Err(_) => Seq::new(alloc),
    }
}

/// The constant of a form that is no list.
fn atom(alloc: Global, form: &Form) -> Result<Value, NoMemory> {
    match &form.body {
        Body::Int(n) => Ok(Value::Int(*n)),
        Body::Chr(code) => Ok(Value::Chr(*code)),
        Body::Str(codes) => Value::string(alloc, Bytes::from_slice(alloc, codes.as_slice())?),
        Body::Sym(s) => Ok(Value::Sym(copy_symbol(alloc, s)?)),
        _ => Err(AllocError),
    }
}

/// The conses of forms that are no lists, and what stands behind the last.
fn conses(alloc: Global, forms: &[Form], last: Value) -> Result<Value, NoMemory> {
    let mut v = last;
    for form in forms.iter().rev() {
        v = Value::cons(alloc, atom(alloc, form)?, v)?;
    }
    Ok(v)
}

/// The constant of a form, a list of which has no lists within.
fn constant(alloc: Global, form: &Form) -> Result<Value, NoMemory> {
    match &form.body {
        Body::List(forms) => {
            let nil = Value::Sym(acl2(alloc, b"NIL")?);
            conses(alloc, forms.as_slice(), nil)
        }
        Body::Dotted(forms, last) => conses(alloc, forms.as_slice(), atom(alloc, last.get())?),
        _ => atom(alloc, form),
    }
}

/// The function that a call begins with. `+`, `*` and `-` stand for the functions of two, two and one argument.
fn head(alloc: Global, form: &Form) -> Result<Symbol, NoMemory> {
    let Body::Sym(name) = &form.body else {
        return Err(AllocError);
    };
    match name.name.as_slice() {
        b"+" => acl2(alloc, b"BINARY-+"),
        b"*" => acl2(alloc, b"BINARY-*"),
        b"-" => acl2(alloc, b"UNARY--"),
        _ => copy_symbol(alloc, name),
    }
}

/// The term of a form: a symbol is a variable, what is quoted a constant, a list a call, anything else a constant.
#[cycle(writing)]
pub fn written(alloc: Global, form: &Form) -> Result<Term, NoMemory> {
    match &form.body {
        Body::Sym(name) => Ok(Term::var(copy_symbol(alloc, name)?)),
        Body::Quoted(inner) => Ok(Term::quote(constant(alloc, inner.get())?)),
        Body::List(items) => match items.as_slice() {
            [first, rest @ ..] => {
                let arguments = all_written(alloc, rest)?;
                Term::call(alloc, head(alloc, first)?, arguments)
            }
            [] => Err(AllocError),
        },
        _ => Ok(Term::quote(atom(alloc, form)?)),
    }
}

/// The terms of forms.
#[cycle(writing)]
fn all_written(alloc: Global, forms: &[Form]) -> Result<Seq<Term>, NoMemory> {
    let mut out = Seq::new(alloc);
    for form in forms {
        out.push(written(alloc, form)?)?;
    }
    Ok(out)
}

/// The terms of a text's forms.
pub fn terms(alloc: Global, text: &str) -> Result<Seq<Term>, NoMemory> {
    let read = read(alloc, text);
    all_written(alloc, read.as_slice())
}

/// The term of a text's first form.
pub fn term(alloc: Global, text: &str) -> Result<Term, NoMemory> {
    let read = read(alloc, text);
    match read.as_slice() {
        [form, ..] => written(alloc, form),
        [] => Err(AllocError),
    }
}

/// The constant of a text's first form.
pub fn value(alloc: Global, text: &str) -> Result<Value, NoMemory> {
    let read = read(alloc, text);
    match read.as_slice() {
        [form, ..] => constant(alloc, form),
        [] => Err(AllocError),
    }
}
