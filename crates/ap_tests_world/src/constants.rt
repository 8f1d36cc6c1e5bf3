use crate::expect::expect;
use crate::forms::{one_form, refusal, word};
use ap_list::{Bytes, NoMemory};
use ap_print::print_value;
use ap_reader::{Body, Form};
use ap_tests_terms::sides;
use ap_translate::{constant_value, may_name, may_name_constant};
use ap_value::Symbol;
use std::alloc::Global;

/// A form, and its value as `defconst` takes it, or the number of its refusal with the place.
const CONSTANTS: &str = r#"12 => 12
-3 => -3
#\a => #\a
"ab" => "ab"
:key => :KEY
t => T
nil => NIL
() => NIL
'x => X
(quote x) => X
'(a . 1) => (A . 1)
''a => (QUOTE A)
'"s" => "s"
x => none
*k* => none
(quote) => none
(quote a b) => none
(quote . a) => none
(cons 1 2) => none
(list) => none
`x => none
,x => none
'(a ,b) => 7 at 4
'(a `b) => 3 at 4
(quote (a ,b)) => 7 at 10"#;

/// A symbol, and what it may name.
const NAMES: &str = r#"f => event
** => event
*a => event
a* => event
if => event
declare => event
cr => event
caaaaar => event
caxr => event
*c* => constant
*** => constant
* => nothing
t => nothing
nil => nothing
:f => nothing
:*c* => nothing
quote => nothing
lambda => nothing
:lambda => nothing
and => nothing
cond => nothing
let* => nothing
/= => nothing
1+ => nothing
list* => nothing
append => nothing
cadr => nothing
cddadr => nothing
first => nothing
second => nothing
rest => nothing"#;

/// What a form's value prints as.
fn answer(alloc: Global, form: &Form) -> Result<Bytes, NoMemory> {
    match constant_value(alloc, form) {
        Ok(Some(value)) => print_value(alloc, &value),
        Ok(None) => word(alloc, "none"),
        Err(error) => refusal(alloc, &error),
    }
}

/// The same of a text's one form.
fn answered(alloc: Global, text: &str) -> Result<Bytes, NoMemory> {
    match one_form(alloc, text) {
        Some(form) => answer(alloc, &form),
        None => word(alloc, "not one form"),
    }
}

/// What a symbol may name.
fn named(symbol: &Symbol) -> &'static [u8] {
    if may_name(symbol) {
        b"event"
    } else if may_name_constant(symbol) {
        b"constant"
    } else {
        b"nothing"
    }
}

/// What a text's one symbol may name.
fn named_by(alloc: Global, text: &str) -> &'static [u8] {
    match one_form(alloc, text) {
        Some(form) => named_by_form(&form),
        None => b"not one form",
    }
}

fn named_by_form(form: &Form) -> &'static [u8] {
    match &form.body {
        Body::Sym(symbol) => named(symbol),
        _ => b"no symbol",
    }
}

#[test]
fn written_constants_have_values_and_macros_and_constants_name_nothing(
    rt: HostRuntime,
) -> Result<(), NoMemory> {
    assert_eq!(rt;
        (CONSTANTS.lines().count(), NAMES.lines().count()),
        (25, 31)
    );
    for line in CONSTANTS.lines() {
        let found = answered(rt.alloc(), sides(line).0)?;
        expect(&rt, found.as_slice(), sides(line).1, line);
    }
    for line in NAMES.lines() {
        expect(
            &rt,
            named_by(rt.alloc(), sides(line).0),
            sides(line).1,
            line,
        );
    }
    Ok(())
}
