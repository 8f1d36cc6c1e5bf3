ghost use Rattle.std.specs.Prelude.{◌≡◌, IfOk, map, option_map};
ghost use Rattle.ap_stated.specs.Classes.{class_of, classes_listed, classes_in};
ghost use Rattle.ap_reader.specs.Tops.{items_in};

use ap_list::{NoMemory, Seq};
use ap_reader::{Form, is_keyword, items};
use ap_world::RuleClass;
use std::alloc::Global;

/// The class that a form names.
fn class_of(form: &Form) -> RuleClass
    ensures { result ≡ class_of form.now }
{
    if is_keyword(form, b"LINEAR") {
        RuleClass::Linear
    } else if is_keyword(form, b"TYPE-PRESCRIPTION") {
        RuleClass::TypePrescription
    } else {
        RuleClass::Rewrite
    }
}

/// The classes that forms name.
fn all_classes(alloc: Global, forms: &[Form]) -> Result<Seq<RuleClass>, NoMemory>
    ensures { IfOk result (λ cs. cs ≡ map class_of forms.now) }
{
    let mut out = Seq::new(alloc);
    for form in forms {
        out.push(class_of(form))?;
    }
    Ok(out)
}

/// The classes that a form lists, or the one that it names.
fn listed(alloc: Global, form: &Form) -> Result<Seq<RuleClass>, NoMemory>
    ensures { IfOk result (λ cs. cs ≡ classes_listed (items_in form.now) form.now) }
{
    match items(form) {
        Some(forms) => all_classes(alloc, forms),
        None => Seq::from_slice(alloc, &[class_of(form)]),
    }
}

/// The classes of a theorem: those that are given, and else that of rewrite rules.
pub(crate) fn classes_of(alloc: Global, given: Option<&Form>) -> Result<Seq<RuleClass>, NoMemory>
    ensures { IfOk result (λ cs. cs ≡ classes_in (option_map (λ f. f.now) given.entry)) }
{
    match given {
        Some(form) => listed(alloc, form),
        None => Seq::from_slice(alloc, &[RuleClass::Rewrite]),
    }
}
