//! The demo's book.
ghost use Rattle.std.specs.Prelude.{◌≡◌, IfOk};
ghost use Rattle.ap_books.specs.Demo.{demo_function, demo_theorem, demo_text, package_line};

use ap_list::{Bytes, NoMemory};
use itoa::Buffer;
use std::alloc::Global;

/// The function of a number: a copy of a list.
#[tactic(auto, unfolding(crate::specs::Demo::demo_function))]
fn function_line(alloc: Global, number: u32) -> Result<Bytes, NoMemory>
    ensures { IfOk result (λ text. text ≡ demo_function number) }
{
    let mut digits = Buffer::new();
    let digits = digits.format(number).as_bytes();
    let mut text = Bytes::new(alloc);
    text.extend(b"(defun d-")?;
    text.extend(digits)?;
    text.extend(b" (x) (if (consp x) (cons (car x) (d-")?;
    text.extend(digits)?;
    text.extend(b" (cdr x))) nil))\n")?;
    Ok(text)
}

/// The theorem about it: a list is its copy.
#[tactic(auto, unfolding(crate::specs::Demo::demo_theorem))]
fn theorem_line(alloc: Global, number: u32) -> Result<Bytes, NoMemory>
    ensures { IfOk result (λ text. text ≡ demo_theorem number) }
{
    let mut digits = Buffer::new();
    let digits = digits.format(number).as_bytes();
    let mut text = Bytes::new(alloc);
    text.extend(b"(defthm d-")?;
    text.extend(digits)?;
    text.extend(b"-same (implies (true-listp x) (equal (d-")?;
    text.extend(digits)?;
    text.extend(b" x) x)))\n")?;
    Ok(text)
}

/// The demo's book of `n` functions, numbered from 1, each with its theorem. The only error is want of memory.
#[tactic(auto, unfolding(crate::specs::Demo::package_line))]
pub fn demo_book(alloc: Global, n: u32) -> Result<Bytes, NoMemory>
    ensures { IfOk result (λ text. text ≡ demo_text n) }
{
    let mut text = Bytes::from_slice(alloc, b"(in-package \"ACL2\")\n")?;
    for k in 0..n {
        text.extend(function_line(alloc, k + 1)?.as_slice())?;
        text.extend(theorem_line(alloc, k + 1)?.as_slice())?;
    }
    Ok(text)
}
