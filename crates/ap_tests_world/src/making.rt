use crate::expect::expect;
use crate::showing::{classes, shown, word};
use ap_list::{Bytes, NoMemory};
use ap_rules::rules_of;
use ap_tests_terms::{sides, term};
use ap_value::acl2;
use std::alloc::Global;

/// The initials of a theorem's classes, its term, and its rules, or why it is refused.
const THEOREMS: &str = r#"r (equal (f x y) x) => U 0 (F X Y) = X
r (iff (f x) (g x)) => U 0 (F X) ~ (G X)
r (not (p x)) => U 0 (P X) = 'NIL
r (p x) => U 0 (P X) ~ 'T
r (if (equal (f x) x) (if (iff (g x) (h x)) (not (k x)) 'nil) 'nil) => U 0 (F X) = X; U 1 (G X) ~ (H X); U 2 (K X) = 'NIL
r (if (if (p x) (q x) 'nil) (r x) 'nil) => U 0 (P X) ~ 'T; U 1 (Q X) ~ 'T; U 2 (R X) ~ 'T
r (implies (if (p x) (q y) 'nil) (equal (f x y) x)) => U 0 (F X Y) = X if (P X) if (Q Y)
r (implies (p x) (implies (q x) (if (r x) (s x) 'nil))) => U 0 (R X) ~ 'T if (P X) if (Q X); U 1 (S X) ~ 'T if (P X) if (Q X)
r (implies (p y) (equal (f x) (g y))) => U 0 (F X) = (G Y) if (P Y)
r (equal (equal x y) (equal y x)) => U 0 (EQUAL X Y) = (EQUAL Y X)
r (not (not (p x))) => U 0 (NOT (P X)) = 'NIL
r (if (p x) (q x) (r x)) => LhsConstant
r (if (p x) (q x) 't) => LhsConstant
r x => LhsVariable
r (not x) => LhsVariable
r (equal x (f x)) => LhsVariable
r (equal x y) => LhsVariable
r (iff x (f x)) => LhsVariable
r 't => LhsConstant
r (not 'nil) => LhsConstant
r (equal 'a (f x)) => LhsConstant
r (equal (if x y z) (f x)) => LhsConstant
r (equal 'a x) => LhsConstant
r (equal (f x) (g y)) => FreeInRhs
r (implies (p x) (equal (f x) (g y))) => FreeInRhs
r (if (equal (f x) y) (not z) 'nil) => FreeInRhs
r (if (p x) (equal 'a 'b) 'nil) => LhsConstant
 x => 
 (equal (f x) (g y)) => 
e (equal (f x) (g y)) => 
er (equal (f x) x) => U 0 (F X) = X
l (< (f x) (g x)) => 
l (not (< (f x) '3)) => 
l (equal (f x) (+ x '1)) => 
l (implies (p x) (if (< (f x) (g x)) (< (g x) (h x)) 'nil)) => 
l (< x y) => NotInequality
l (< (f x) (f x)) => NotInequality
l (< (f x) y) => NotInequality
l (p x) => NotInequality
l (not (equal (f x) x)) => NotInequality
l (if (< (f x) (g x)) (p x) 'nil) => NotInequality
t (consp (f x y)) => 
t (true-listp (f)) => 
t (consp (f x x)) => NotTypeForm
t (consp (f x 'a)) => NotTypeForm
t (consp x) => NotTypeForm
t (implies (p x) (consp (f x))) => NotTypeForm
t (natp (f x)) => NotTypeForm
lr (equal x (f x)) => LhsVariable
lt (consp (f x)) => NotInequality
rt (consp (f x)) => U 0 (CONSP (F X)) ~ 'T
rlt (equal (f x) (g x)) => NotTypeForm"#;

/// The rules of a theorem as text, or the word of its refusal.
fn found(alloc: Global, initials: &str, text: &str) -> Result<Bytes, NoMemory> {
    let t = term(alloc, text)?;
    let classes = classes(alloc, initials)?;
    match rules_of(alloc, &acl2(alloc, b"U")?, &t, &classes) {
        Ok(rules) => shown(alloc, rules.as_slice()),
        Err(error) => Bytes::from_slice(alloc, word(error).as_bytes()),
    }
}

#[test]
fn each_theorem_has_its_rules(rt: HostRuntime) -> Result<(), NoMemory> {
    assert_eq!(rt; THEOREMS.lines().count(), 52);
    for line in THEOREMS.lines() {
        let (stated, wanted) = sides(line);
        let (initials, text) = stated.split_once(' ').unwrap_or(("", stated));
        let found = found(rt.alloc(), initials, text)?;
        expect(&rt, found.as_slice(), wanted, line);
    }
    Ok(())
}
