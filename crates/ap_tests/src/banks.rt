use ap_bank::{Bank, Node};
use ap_term::{NoMemory, Term, same_term};
use ap_tests_terms::term;
use std::alloc::Global;
use std::test::Fail;

/// Terms in the order in which a bank is asked for their numbers; each with its number and the number of its arguments.
const ROWS: &[(&str, u32, usize)] = &[
    ("x", 0, 0),
    ("(cons x y)", 2, 2),
    ("y", 1, 0),
    ("(cons x y)", 2, 2),
    ("(car (cons (cons x y) 1))", 5, 1),
    ("1", 3, 0),
    ("(cons (cons x y) 1)", 4, 2),
    ("(cons y x)", 6, 2),
    ("x", 0, 0),
];

/// The number of a term in a bank, whether the term with that number is this one, and the number of its arguments.
fn kept(alloc: Global, bank: &mut Bank, t: &Term) -> Result<(u32, bool, usize), NoMemory> {
    let id = bank.intern(alloc, t)?;
    let back = bank.term(alloc, id)?;
    let arguments = match bank.view(id) {
        Node::Call(_, ids) => ids.len(),
        _ => 0,
    };
    Ok((id.number(), same_term(&back, t), arguments))
}

/// The same of a term that is written.
fn written(alloc: Global, bank: &mut Bank, text: &str) -> Result<(u32, bool, usize), NoMemory> {
    let t = term(alloc, text)?;
    kept(alloc, bank, &t)
}

#[test]
fn a_bank_keeps_each_term_once(rt: HostRuntime) -> Result<(), Fail> {
    let mut bank = Bank::empty(rt.alloc());
    for (text, number, arguments) in ROWS {
        let found = written(rt.alloc(), &mut bank, *text)?;
        assert_eq!(rt; found, (*number, true, *arguments), "{text}");
    }
    assert_eq!(rt; bank.len(), 7);
    Ok(())
}
