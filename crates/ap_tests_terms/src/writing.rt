use ap_list::{Bytes, NoMemory};
use ap_print::{print_clause, print_term};
use ap_term::{Clause, Term};
use std::alloc::Global;

/// Writes a term.
pub fn put_term(alloc: Global, out: &mut Bytes, t: &Term) -> Result<(), NoMemory> {
    let text = print_term(alloc, t)?;
    out.extend(text.as_slice())
}

/// The clauses as text, with a `;` between.
pub fn shown(alloc: Global, clauses: &[Clause]) -> Result<Bytes, NoMemory> {
    let mut out = Bytes::new(alloc);
    for c in clauses {
        if !out.is_empty() {
            out.extend(b"; ")?;
        }
        out.append(print_clause(alloc, c)?)?;
    }
    Ok(out)
}

/// The two sides of a line.
pub fn sides(line: &str) -> (&str, &str) {
    line.split_once(" => ").unwrap_or((line, ""))
}
