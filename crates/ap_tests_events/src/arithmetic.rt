use crate::working::worked;
use ap_events::Bytes;
use std::test::Fail;

const EVENTS: &str = r#"(defthm lin (implies (< x y) (not (< y (+ 1 x)))))
(defthm anti (implies (and (integerp x) (integerp y) (not (< x y)) (not (< y x))) (equal x y)) :rule-classes nil)
(defthm squeezed (implies (and (not (< x y)) (not (< y x))) (equal x y)) :rule-classes nil)
(defun size (x) (if (consp x) 2 5))
(defthm size-of-cons (implies (consp x) (and (< (size x) 3) (not (< (size x) 2)))) :rule-classes :linear)
(in-theory (disable size))
(defthm small (implies (consp (car y)) (< (size (car y)) 4)) :rule-classes nil)
(defthm exact (implies (consp x) (equal (size x) 2)) :rule-classes nil)
(defthm unrelieved (< (size x) 4) :rule-classes nil)
(defthm positive (not (< (size x) 1)) :rule-classes nil)
(in-theory (disable size-of-cons))
(defthm disabled (implies (consp x) (< (size x) 4)) :rule-classes nil)
(defthm chain-28 (implies (and (< x0 x1) (< x1 x2) (< x2 x3) (< x3 x4) (< x4 x5) (< x5 x6) (< x6 x7) (< x7 x8) (< x8 x9) (< x9 x10) (< x10 x11) (< x11 x12) (< x12 x13) (< x13 x14) (< x14 x15) (< x15 x16) (< x16 x17) (< x17 x18) (< x18 x19) (< x19 x20) (< x20 x21) (< x21 x22) (< x22 x23) (< x23 x24) (< x24 x25) (< x25 x26) (< x26 x27) (< x27 x28)) (< x0 x28)) :rule-classes nil)
(defthm chain-33 (implies (and (< x0 x1) (< x1 x2) (< x2 x3) (< x3 x4) (< x4 x5) (< x5 x6) (< x6 x7) (< x7 x8) (< x8 x9) (< x9 x10) (< x10 x11) (< x11 x12) (< x12 x13) (< x13 x14) (< x14 x15) (< x15 x16) (< x16 x17) (< x17 x18) (< x18 x19) (< x19 x20) (< x20 x21) (< x21 x22) (< x22 x23) (< x23 x24) (< x24 x25) (< x25 x26) (< x26 x27) (< x27 x28) (< x28 x29) (< x29 x30) (< x30 x31) (< x31 x32) (< x32 x33)) (< x0 x33)) :rule-classes nil)
"#;

const PRINTED: &str = "DEFTHM LIN
Goal simplify 0
DEFTHM LIN proved
DEFTHM ANTI
Goal simplify 0
DEFTHM ANTI proved
DEFTHM SQUEEZED
Goal push *1
*1 noscheme
Checkpoints before induction
Goal: (OR (< X Y) (< Y X) (EQUAL X Y))
DEFTHM SQUEEZED refused 8.1 NoScheme
DEFUN SIZE
DEFUN SIZE admitted
DEFTHM SIZE-OF-CONS
Goal simplify 0
DEFTHM SIZE-OF-CONS proved
IN-THEORY admitted
DEFTHM SMALL
Goal simplify 0
DEFTHM SMALL proved
DEFTHM EXACT
Goal simplify 0
DEFTHM EXACT proved
DEFTHM UNRELIEVED
Goal push *1
*1 noscheme
Checkpoints before induction
Goal: (< (SIZE X) '4)
DEFTHM UNRELIEVED refused 8.1 NoScheme
DEFTHM POSITIVE
Goal simplify 0
DEFTHM POSITIVE proved
IN-THEORY admitted
DEFTHM DISABLED
Goal push *1
*1 noscheme
Checkpoints before induction
Goal: (OR (NOT (CONSP X)) (< (SIZE X) '4))
DEFTHM DISABLED refused 8.1 NoScheme
DEFTHM CHAIN-28
Goal simplify 0
DEFTHM CHAIN-28 proved
DEFTHM CHAIN-33
Goal push *1
*1 noscheme
Checkpoints before induction
Goal: (OR (NOT (< X0 X1)) (NOT (< X1 X2)) (NOT (< X2 X3)) (NOT (< X3 X4)) (NOT (< X4 X5)) (NOT (< X5 X6)) (NOT (< X6 X7)) (NOT (< X7 X8)) (NOT (< X8 X9)) (NOT (< X9 X10)) (NOT (< X10 X11)) (NOT (< X11 X12)) (NOT (< X12 X13)) (NOT (< X13 X14)) (NOT (< X14 X15)) (NOT (< X15 X16)) (NOT (< X16 X17)) (NOT (< X17 X18)) (NOT (< X18 X19)) (NOT (< X19 X20)) (NOT (< X20 X21)) (NOT (< X21 X22)) (NOT (< X22 X23)) (NOT (< X23 X24)) (NOT (< X24 X25)) (NOT (< X25 X26)) (NOT (< X26 X27)) (NOT (< X27 X28)) (NOT (< X28 X29)) (NOT (< X29 X30)) (NOT (< X30 X31)) (NOT (< X31 X32)) (NOT (< X32 X33)) (< X0 X33))
DEFTHM CHAIN-33 refused 8.1 NoScheme
";

#[test]
fn linear_arithmetic_decides_with_linear_rules_and_at_most_32_polynomials(
    rt: HostRuntime,
) -> Result<(), Fail> {
    let alloc = rt.alloc();
    let mut printed = Bytes::new(alloc);
    worked(&rt, alloc, EVENTS, &mut printed)?;
    assert_eq!(rt; printed.as_slice(), PRINTED.as_bytes());
    Ok(())
}
